// The lent forms of parser.rs, thin functions over the call by value: a parser behind `&mut`, and a frame that refers to the caller's
// bytes.
#![tactic(auto)]

ghost use Rattle.std.specs.Prelude.{◌≡◌};
ghost use Rattle.vp8_records.specs.declared.Mode.TheVariants.{Rust};
ghost use Rattle.vp8_frame.specs.View.{viewed, Framed};

use std::convert::AsSlice;
use vp8_records::{Header, Mode, Parser, Refusal};

// A header and the whole frame that it was read from; of a refusal, the blank header and an empty part.
#[derive(Clone, Copy, PartialEq, Eq, Debug)]
pub struct Frame<'a> {
    // How the call went.
    pub outcome: Result<(), Refusal>,
    // What the frame's header says; blank where it was refused (RFC 6386 section 19.2).
    pub header: Header,
    // The caller's bytes: all of the frame, or none where it was refused.
    pub bitstream: &'a [u8],
}

// The part that an answer refers to: it begins where the frame does.
fn part_of<'a>(bytes: &'a [u8], outcome: Result<(), Refusal>) -> &'a [u8]
    ensures { (result.now ≡ viewed outcome bytes.now) × (result.ref_ptr ≡ bytes.entry.ref_ptr) }
{
    match outcome {
        Ok(()) => bytes,
        Err(_) => &bytes[..0],
    }
}

// One call over a lent parser, which holds the new state when it returns, also where the frame is refused.
pub fn parse_frame_in<'a>(parser: &mut Parser, bytes: &'a [u8], mode: Mode) -> Frame<'a>
    ensures { Framed mode parser.old bytes.now result.outcome result.header result.bitstream.now
        parser.new × (result.bitstream.ref_ptr ≡ bytes.entry.ref_ptr) }
{
    let parsed = vp8_parser::parse_in(*parser, bytes, mode);
    *parser = parsed.parser;
    Frame {
        outcome: parsed.outcome,
        header: parsed.header,
        bitstream: part_of(bytes, parsed.outcome),
    }
}

// One call over a lent parser, read as the Rust reads.
pub fn parse_frame<'a>(parser: &mut Parser, bytes: &'a [u8]) -> Frame<'a>
    ensures { Framed Rust parser.old bytes.now result.outcome result.header result.bitstream.now
        parser.new × (result.bitstream.ref_ptr ≡ bytes.entry.ref_ptr) }
{
    parse_frame_in(parser, bytes, Mode::Rust)
}

impl<'a> Frame<'a> {
    // The bytes of the frame.
    pub fn as_ref(&self) -> &'a [u8]
        ensures { result ≡ self.now.bitstream }
    {
        self.bitstream
    }
}

impl AsSlice<u8> for Frame<'_> {
    ghost items = { λ f. f.bitstream.now };

    // The same, for those who take whatever lends bytes.
    fn as_slice(&self) -> &[u8] {
        self.as_ref()
    }
}
