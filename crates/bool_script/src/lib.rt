// A script of reads over an area, run on the bare decoder of either engine: each read is a kind (0 bool, 1 literal, 2 signed literal) and
// a probability or a width. The line tells what each read gave, where it left the decoder and how far past the area's end, and at its end
// what the decoder shows; which engine made it has no say.
#![tactic(auto)]

pub mod engines;
pub mod input;
pub mod program;

ghost use Rattle.std.specs.Prelude.{◌≡◌, true};
ghost use Rattle.rfc6386.specs.Decoder.{bits};
ghost use Rattle.bool_slow.specs.Asks.{answered};
ghost use Rattle.text.specs.Told.{told, Puts};
ghost use Rattle.bool_script.specs.Script.{ask_of, asked, Leaves, known};
ghost use Rattle.bool_script.specs.Line.{Tells, read_text, end_text, line_from, line_of};

use bool_decoder::ReadRefusal;
use bool_slow::bare::BareDecoder;
use engines::{Decoder, fresh};
use text::{Buffer, Text};

// Which engine.
#[derive(Clone, Copy, PartialEq, Eq, Debug)]
pub enum Engine {
    // `bool_decoder`.
    Window,
    // `bool_slow`.
    Slow,
}

// One read of a script.
#[derive(Clone, Copy, PartialEq, Eq, Debug)]
pub enum Ask {
    // A bool at a probability.
    Bool(u8),
    // A literal of a width.
    Plain(u8),
    // A signed literal of a width.
    Signed(u8),
}

impl Ask {
    // A kind that is not known counts as a signed literal.
    #[tactic(auto, unfolding(crate::specs::Script::ask_of))]
    pub fn new(kind: u8, number: u8) -> Self
        ensures { asked result ≡ ask_of kind number }
    {
        match kind {
            0 => Ask::Bool(number),
            1 => Ask::Plain(number),
            _ => Ask::Signed(number),
        }
    }
}

// What one read gives; nothing where it is refused.
fn tell_value<D: BareDecoder, B: Buffer>(
    dec: &mut D,
    ask: Ask,
    out: &mut Text<B>,
) -> Result<(), ReadRefusal>
    ensures { Tells D.area D.state (asked ask) dec.old (told B.place B.items out.old) result dec.new (told B.place B.items out.new) }
{
    match ask {
        Ask::Bool(prob) => out.byte(b'0' + u8::from(dec.ask_bool(prob)?.value)),
        Ask::Plain(width) => out.decimal(u64::from(dec.ask_plain(u32::from(width))?.value)),
        Ask::Signed(width) => out.signed(dec.ask_signed(u32::from(width))?.value),
    }
    Ok(())
}

// One read, and what the line says of it.
fn step<D: BareDecoder, B: Buffer>(dec: &mut D, ask: Ask, out: &mut Text<B>)
    ensures leaves { Leaves D.area D.state (asked ask) dec.old dec.new }
    ensures told { Puts B.place B.items out.old (read_text (bits (D.area dec.old).now) (answered (D.area dec.old).now (asked ask) (D.state dec.old))) out.new }
{
    if let Err(refusal) = tell_value(dec, ask, out) {
        out.byte(b'r');
        out.decimal(u64::from(refusal.number()));
    }
    let seen = dec.shown();
    out.fill(b",@|+|", &[seen.position, seen.past]);
}

// What the decoder shows: range, value, count, position and bits past the end.
fn finish<D: BareDecoder, B: Buffer>(dec: &D, out: &mut Text<B>)
    ensures { Puts B.place B.items out.old (end_text (bits (D.area dec.now).now) (D.state dec.now)) out.new }
{
    let seen = dec.shown();
    let shown = [
        u32::from(seen.range),
        u32::from(seen.value),
        u32::from(seen.count),
        seen.position,
        seen.past,
    ];
    out.bytes(b" |");
    out.fill(b" | | | | |", &shown);
}

// The line of the reads from a decoder on, with a space before every read but the first. A byte without its second is no read.
fn tell_reads<D: BareDecoder + Drop, B: Buffer>(mut dec: D, reads: &[u8], out: &mut Text<B>)
    ensures { Puts B.place B.items out.old (line_from (D.area dec).now true reads.now (D.state dec)) out.new }
{
    for (place, read) in reads.chunks_exact(2).enumerate() {
        if place != 0 {
            out.byte(b' ');
        }
        step(&mut dec, Ask::new(read[0], read[1]), out);
    }
    finish(&dec, out);
}

// The script's line, by either engine.
pub fn line<B: Buffer>(area: &[u8], reads: &[u8], engine: Engine, out: &mut Text<B>)
    ensures { Puts B.place B.items out.old (line_of area.now reads.now) out.new }
{
    match fresh(engine, area) {
        Decoder::Window(dec) => tell_reads(dec, reads, out),
        Decoder::Slow(dec) => tell_reads(dec, reads, out),
    }
}

// Whether every kind of the script is known.
pub fn kinds_known(reads: &[u8]) -> bool
    ensures { result ≡ known reads.now }
{
    reads.iter().step_by(2).all(|&kind| kind <= 2)
}
