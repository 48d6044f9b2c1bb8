// Many frames over one parser: the fold of calls, so that what is proved of any list of calls holds of running code.
#![tactic(auto)]

ghost use Rattle.std.specs.Prelude.{◌≡◌, [], get_or, drop};
ghost use Rattle.vp8_records.specs.Mode.{mode_of};
ghost use Rattle.rfc6386.specs.Fills.{cuts};
ghost use Rattle.vp8_sequence.specs.Fold.{asked, Folds};

use vp8_records::{Mode, Parser};

// The state after all frames, and how many of them were accepted.
#[derive(Clone, Copy, PartialEq, Eq, Debug)]
pub struct Folded {
    // What is kept after the last frame.
    pub parser: Parser,
    // How many were accepted.
    pub accepted: usize,
}

// The next mode, and those after it; where there are no more modes, the Rust's.
fn next_mode(modes: &[u8]) -> (Mode, &[u8])
    ensures mode { result.0 ≡ mode_of (get_or modes.now 0 0) }
    ensures rest { result.1.now ≡ drop 1 modes.now }
{
    match modes {
        [number, rest @ ..] => (Mode::from(u32::from(*number)), rest),
        [] => (Mode::Rust, modes),
    }
}

// The frames stand one after another in `bytes`, with these lengths. Each is read in its own mode: 0 is the Rust's, any other number the
// standard's; a frame beyond the modes is read as the Rust reads, and one that runs past the end of the bytes is cut there.
pub fn parse_frames_in(parser: Parser, bytes: &[u8], lengths: &[u32], modes: &[u8]) -> Folded
    ensures { Folds parser (asked modes.now (cuts lengths.now bytes.now)) result.parser
        result.accepted }
{
    let mut state = parser;
    let mut accepted: usize = 0;
    let mut rest = bytes;
    let mut left = modes;
    for &length in lengths {
        let (frame, after) = rest.split_at(rest.len().min(length as usize));
        let (mode, others) = next_mode(left);
        let answer = vp8_parser::parse_in(state, frame, mode);
        accepted += usize::from(answer.outcome.is_ok());
        state = answer.parser;
        rest = after;
        left = others;
    }
    Folded {
        parser: state,
        accepted,
    }
}

// The frames stand one after another in `bytes`, with these lengths, and are read as the Rust reads.
pub fn parse_frames(parser: Parser, bytes: &[u8], lengths: &[u32]) -> Folded
    ensures { Folds parser (asked [] (cuts lengths.now bytes.now)) result.parser result.accepted }
{
    parse_frames_in(parser, bytes, lengths, &[])
}
