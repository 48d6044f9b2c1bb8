// Replays a stored list of scripts (tests/fixed/README.md) on the bare decoder, by both engines, and compares the line of each with the
// stored one. It tells the first differences, and at the end how many there are; a list that is not whole gets a line that says what is
// wrong.
#![tactic(auto)]

ghost use Rattle.std.specs.Prelude.{◌≤◌, IfOk, length};

use bool_script::input::Script;
use bool_script::{Engine, input, line};
use lines::list::Apart;
use lines::run::Line;
use lines::{CutShort, list};
use std::fmt;
use std::io::Read;

// The first byte of a script's record.
const SCRIPT: u8 = 2;

// What is wrong with a list.
#[derive(Clone, Copy, PartialEq, Eq, Debug)]
enum Fault {
    // It does not begin as one.
    Head,
    // A script is wrong, or the list ends before its end.
    Script(input::Fault),
    // It is wrong as any list could be.
    List(list::Fault),
    // It tells another number of scripts.
    Count,
}

impl fmt::Display for Fault {
    fn fmt<W: fmt::Write>(&self, f: &mut fmt::Formatter<W>) -> fmt::Result {
        match self {
            Fault::Head => write!(f, "not a list of scripts"),
            Fault::Script(fault) => write!(f, "{fault}"),
            Fault::List(fault) => write!(f, "{fault}"),
            Fault::Count => write!(f, "the list has another number of scripts"),
        }
    }
}

impl From<input::Fault> for Fault {
    fn from(fault: input::Fault) -> Fault {
        Fault::Script(fault)
    }
}

impl From<list::Fault> for Fault {
    fn from(fault: list::Fault) -> Fault {
        Fault::List(fault)
    }
}

impl From<CutShort> for Fault {
    fn from(cut: CutShort) -> Fault {
        Fault::Script(cut.into())
    }
}

// What has been replayed.
#[derive(Clone, Copy, Default)]
struct Tally {
    scripts: u64,
    operations: u64,
    apart: Apart,
}

impl fmt::Display for Tally {
    fn fmt<W: fmt::Write>(&self, f: &mut fmt::Formatter<W>) -> fmt::Result {
        let Tally {
            scripts,
            operations,
            apart,
        } = *self;
        write!(
            f,
            "{scripts} scripts, {operations} operations, by both engines, {apart}"
        )
    }
}

impl Tally {
    // Scripts are counted from 1.
    fn set_apart(&mut self, rt: &impl Print, engine: &str) {
        let script = self.scripts;
        self.apart.add(|| {
            let _ = println!(rt; "apart: script {script}, {engine}");
        });
    }

    // The line of a script on both engines, held against the stored one.
    fn compare(&mut self, rt: &impl Print, script: Script, stored: &[u8], out: &mut Line) {
        self.scripts = self.scripts.wrapping_add(1);
        self.operations = self
            .operations
            .wrapping_add((script.reads.len() / 2) as u64);
        for (engine, name) in [
            (Engine::Window, "the window"),
            (Engine::Slow, "the slow engine"),
        ] {
            if !is_line(script, stored, engine, out) {
                self.set_apart(rt, name);
            }
        }
    }

    // The number of scripts, and nothing after it.
    fn end(&self, input: &mut impl Read) -> Result<(), Fault> {
        let count = lines::take_le4(input)?.ok_or(CutShort)?;
        if self.scripts != u64::from(count) {
            return Err(Fault::Count);
        }
        Ok(list::end(input)?)
    }
}

fn is_line(script: Script, stored: &[u8], engine: Engine, out: &mut Line) -> bool {
    out.clear();
    line(script.area, script.reads, engine, out);
    out.as_bytes() == stored
}

// A line from the list.
fn take_stored<'a>(input: &mut impl Read, buf: &'a mut [u8]) -> Result<&'a [u8], CutShort>
    ensures { IfOk result (λ line. length line.now ≤ length buf.old) }
{
    let n = usize::from(lines::take_le2(input)?.ok_or(CutShort)?);
    lines::take_exact(input, buf, n)
}

// The whole list.
fn run(rt: &(impl Input + Print)) -> Result<Tally, Fault> {
    let mut input = rt.reader();
    if lines::take_array(&mut input) != Ok(Some(*b"SBBOOLS1")) {
        return Err(Fault::Head);
    }
    let mut area = [0u8; 4096];
    let mut reads = [0u8; 2048];
    let mut stored = [0u8; 32768];
    let mut out = Line::new();
    let mut tally = Tally::default();
    list::records(&mut input, |input, first| -> Result<(), Fault> {
        if first != SCRIPT {
            return Err(list::Fault::Unknown.into());
        }
        // The number of the worked case that it is, for readers; 0 for none.
        lines::take_byte(input).ok_or(CutShort)?;
        let script = input::take(input, &mut area, &mut reads)?.ok_or(CutShort)?;
        let stored = take_stored(input, &mut stored)?;
        tally.compare(rt, script, stored, &mut out);
        Ok(())
    })?;
    tally.end(&mut input)?;
    Ok(tally)
}

fn main(rt: HostRuntime) {
    list::tell(&rt, run(&rt));
}
