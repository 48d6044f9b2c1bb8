// Replays the stored list of frames (tests/fixed/README.md) on the parser and compares every field of every answer, and every kept number
// after every call, with the stored ones. It tells the first differences, and at the end how many frames there are; a list that is not
// whole gets a line that says what is wrong.
#![tactic(auto)]

mod list;

use lines::CutShort;
use lines::list::Apart;
use std::fmt;
use std::io::Read;
use vp8_compare::{Difference, Stored};
use vp8_records::{Mode, Parser};
use vp8_show::input;

// The first bytes of records: a new sequence, and a frame in either mode.
const SEQUENCE: u8 = 1;

const RUST: u8 = 2;

const STANDARD: u8 = 3;

// The bytes of each number of a header, in the order of the list.
const WIDTHS: [u8; 51] = [
    1, 1, 1, 1, 4, 2, 2, 1, 1, 1, 1, 1, 1, 1, 1, 1, 4, 4, 4, 4, 4, 4, 4, 4, 1, 1, 1, 1, 1, 1, 1, 1,
    1, 1, 1, 1, 1, 1, 1, 1, 1, 1, 1, 1, 1, 1, 4, 4, 2, 2, 4,
];

// What is wrong with a list.
#[derive(Clone, Copy, PartialEq, Eq, Debug)]
enum Fault {
    // It does not begin as one.
    Head,
    // Its fresh parser keeps another number, at this place.
    Fresh(usize),
    // A frame is wrong, or the list ends before its end.
    Frame(lines::Fault),
    // A stored answer is wrong.
    Answer,
    // It is wrong as any list could be.
    List(lines::list::Fault),
    // It tells another number of sequences.
    Sequences,
    // It tells another number of frames.
    Frames,
}

impl fmt::Display for Fault {
    fn fmt<W: fmt::Write>(&self, f: &mut fmt::Formatter<W>) -> fmt::Result {
        match self {
            Fault::Head => write!(f, "not a list of frames"),
            Fault::Fresh(n) => write!(f, "a fresh parser keeps another number {n}"),
            Fault::Frame(fault) => write!(f, "{fault}"),
            Fault::Answer => write!(f, "an answer that is cut short or has a wrong index"),
            Fault::List(fault) => write!(f, "{fault}"),
            Fault::Sequences => write!(f, "the list has another number of sequences"),
            Fault::Frames => write!(f, "the list has another number of frames"),
        }
    }
}

impl From<lines::Fault> for Fault {
    fn from(fault: lines::Fault) -> Fault {
        Fault::Frame(fault)
    }
}

impl From<list::BadAnswer> for Fault {
    fn from(_: list::BadAnswer) -> Fault {
        Fault::Answer
    }
}

impl From<lines::list::Fault> for Fault {
    fn from(fault: lines::list::Fault) -> Fault {
        Fault::List(fault)
    }
}

impl From<CutShort> for Fault {
    fn from(cut: CutShort) -> Fault {
        Fault::Frame(cut.into())
    }
}

// What has been replayed. Frames are counted in all and within the sequence.
#[derive(Clone, Copy, Default)]
struct Tally {
    sequences: u64,
    frames: u64,
    within: u64,
    apart: Apart,
}

impl fmt::Display for Tally {
    fn fmt<W: fmt::Write>(&self, f: &mut fmt::Formatter<W>) -> fmt::Result {
        let Tally {
            sequences,
            frames,
            apart,
            ..
        } = *self;
        write!(f, "{sequences} sequences, {frames} frames, {apart}")
    }
}

impl Tally {
    // A frame, and what differs. Sequences and frames are counted from 1.
    fn judge(&mut self, rt: &impl Print, case: u32, found: Option<Difference>) {
        self.frames = self.frames.wrapping_add(1);
        self.within = self.within.wrapping_add(1);
        let Some(difference) = found else {
            return;
        };
        let sequence = self.sequences;
        let frame = self.within;
        self.apart.add(|| {
            let _ = println!(rt;
                "apart: sequence {sequence} frame {frame} case {case}: {difference}"
            );
        });
    }

    // The numbers of sequences and of frames, and nothing after them.
    fn end(&self, input: &mut impl Read) -> Result<(), Fault> {
        let [sequences, frames] = list::numbers(input, &[4, 4])?;
        if self.sequences != u64::from(sequences) {
            return Err(Fault::Sequences);
        }
        if self.frames != u64::from(frames) {
            return Err(Fault::Frames);
        }
        Ok(lines::list::end(input)?)
    }
}

// The parser, and what the list says of the header's probabilities and of the kept numbers so far.
#[derive(Clone, Copy)]
struct Replay {
    parser: Parser,
    fresh: [u8; 1126],
    probs: [u8; 1101],
    kept: [u8; 1126],
    tally: Tally,
}

// A stored answer, beside the probabilities and the kept numbers: the refusal with what it carries, and an accepted frame's numbers.
#[derive(Clone, Copy)]
struct Answer {
    given: [u32; 3],
    numbers: Option<[u32; 51]>,
}

impl Replay {
    // Before any sequence, with the kept numbers of a fresh parser.
    fn new(fresh: [u8; 1126]) -> Replay {
        Replay {
            parser: Parser::new(),
            fresh,
            probs: [0; 1101],
            kept: [0; 1126],
            tally: Tally::default(),
        }
    }

    // A new sequence: a fresh parser, and what it starts with. The header's probabilities are the last 1,101 kept numbers.
    fn sequence(&mut self) {
        let fresh = self.fresh;
        self.parser = Parser::new();
        self.probs.copy_from_slice(&fresh[25..]);
        self.kept = fresh;
        self.tally.sequences = self.tally.sequences.wrapping_add(1);
        self.tally.within = 0;
    }

    fn take_stored(&mut self, input: &mut impl Read) -> Result<Answer, list::BadAnswer> {
        let given = list::numbers(input, &[1, 4, 4])?;
        let mut numbers = None;
        if given[0] == 0 {
            numbers = Some(list::numbers(input, &WIDTHS)?);
            list::patch(input, &mut self.probs)?;
        }
        list::patch(input, &mut self.kept)?;
        Ok(Answer { given, numbers })
    }

    // A frame's answer, held against the stored one that comes next.
    fn frame(
        &mut self,
        input: &mut impl Read,
        frame: &[u8],
        mode: Mode,
    ) -> Result<Option<Difference>, Fault> {
        let answer = self.take_stored(input)?;
        let parsed = vp8_parser::parse_in(self.parser, frame, mode);
        self.parser = parsed.parser;
        // Of a stored refusal there are no numbers, and none are looked at.
        let stored = Stored {
            given: &answer.given,
            numbers: answer.numbers.as_slice().as_flattened(),
            probs: &self.probs,
            kept: &self.kept,
        };
        Ok(vp8_compare::first(parsed, stored))
    }
}

// The whole list: eight letters, the kept numbers of a fresh parser, and records.
fn run(rt: &(impl Input + Print)) -> Result<Tally, Fault> {
    let mut input = rt.reader();
    if lines::take_array(&mut input) != Ok(Some(*b"SBFRAME2")) {
        return Err(Fault::Head);
    }
    let fresh = lines::take_array(&mut input)?.ok_or(CutShort)?;
    if let Some(i) = vp8_compare::fresh_apart(&fresh) {
        return Err(Fault::Fresh(i));
    }
    let mut replay = Replay::new(fresh);
    let mut buffer = [0u8; 65536];
    lines::list::records(&mut input, |input, first| -> Result<(), Fault> {
        let mode = match first {
            RUST => Mode::Rust,
            STANDARD => Mode::Standard,
            SEQUENCE => {
                replay.sequence();
                return Ok(());
            }
            _ => return Err(lines::list::Fault::Unknown.into()),
        };
        // The number of the worked case that the frame is stands first, 0 for none.
        let [case, size] = list::numbers(input, &[1, 4])?;
        let frame = input::take_frame(input, &mut buffer, size)?;
        let found = replay.frame(input, frame, mode)?;
        replay.tally.judge(rt, case, found);
        Ok(())
    })?;
    replay.tally.end(&mut input)?;
    Ok(replay.tally)
}

fn main(rt: HostRuntime) {
    lines::list::tell(&rt, run(&rt));
}
