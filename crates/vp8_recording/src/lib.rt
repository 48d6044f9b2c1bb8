// A recording through one parser: the walk, then a call for each frame that it lists, in the file's order.
#![tactic(auto)]

ghost use Rattle.std.specs.Prelude.{◌≡◌, min, length, take, drop};
ghost use Rattle.vp8_records.specs.declared.Mode.TheVariants.{Rust};
ghost use Rattle.vp8_records.specs.Place.{further};
ghost use Rattle.rfc6386.specs.Call.{after};
ghost use Rattle.ivf.specs.Walk.{bytes_of};
ghost use Rattle.ivf.specs.Listed.{places_of};
ghost use Rattle.vp8_recording.specs.Plays.{all_in, Plays};

use ivf::Walked;
use vp8_records::{Mode, Parsed, Parser};

// What a recording leaves.
#[derive(Clone, Copy)]
pub struct Played {
    // How many frames were listed and fed, and why no more.
    pub walked: Walked,
    // What is kept after the last of them.
    pub parser: Parser,
}

// The bytes of a listed frame, as far as the file has them, where they stand.
pub fn frame_at(file: &[u8], offset: u64, size: u32) -> &[u8]
    ensures { (result.now ≡ take size (drop offset file.now))
        × (result.ref_ptr ≡ further (min offset (length file.now)) file.entry.ref_ptr) }
{
    let rest = &file[file.len().min(offset as usize)..];
    &rest[..rest.len().min(size as usize)]
}

// The frames that both lists name, one after the other; each answer is told, with how many came before it.
fn feed<F: FnMut(usize, Parsed)>(
    parser: Parser,
    file: &[u8],
    offsets: &[u64],
    lengths: &[u32],
    mode: Mode,
    mut tell: F,
) -> Parser
    requires { F.IsAlwaysCallable tell }
    ensures { result ≡ after parser (all_in mode (bytes_of file.now (places_of offsets.now lengths.now))) }
{
    let mut state = parser;
    for (i, (&offset, &length)) in offsets.iter().zip(lengths).enumerate() {
        let answer = vp8_parser::parse_in(state, frame_at(file, offset, length), mode);
        state = answer.parser;
        tell(i, answer);
    }
    state
}

// Lists the frames of a recording, feeds each to the parser, tells its answer with its index, and answers the parser that is left. Frames
// before a refusal are listed and fed all the same.
pub fn play_each<F: FnMut(usize, Parsed)>(
    parser: Parser,
    file: &[u8],
    offsets: &mut [u64],
    lengths: &mut [u32],
    mode: Mode,
    tell: F,
) -> Played
    requires { F.IsAlwaysCallable tell }
    ensures { Plays mode parser file.now result
        offsets.old offsets.new lengths.old lengths.new }
{
    let walked = ivf::walk(file, offsets, lengths);
    let count = walked.count;
    let state = feed(
        parser,
        file,
        &offsets[..count],
        &lengths[..count],
        mode,
        tell,
    );
    Played {
        walked,
        parser: state,
    }
}

// The same, with no answer told.
pub fn play_in(
    parser: Parser,
    file: &[u8],
    offsets: &mut [u64],
    lengths: &mut [u32],
    mode: Mode,
) -> Played
    ensures { Plays mode parser file.now result
        offsets.old offsets.new lengths.old lengths.new }
{
    play_each(parser, file, offsets, lengths, mode, |_, _| {})
}

// The same, with frames read as the Rust reads them.
pub fn play(parser: Parser, file: &[u8], offsets: &mut [u64], lengths: &mut [u32]) -> Played
    ensures { Plays Rust parser file.now result
        offsets.old offsets.new lengths.old lengths.new }
{
    play_in(parser, file, offsets, lengths, Mode::Rust)
}
