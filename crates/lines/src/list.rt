// What the replays share: a stored list of records, each known by its first byte, and what is told of it.
ghost use Rattle.std.specs.Prelude.{◌≡◌, ◌+◌, ◌%◌, ◌^◌, IfErr};

use crate::run::{Flow, turns};
use crate::{CutShort, take_byte};
use std::fmt;
use std::fmt::Display;
use std::io::Read;
use std::ops::ControlFlow;

// The first byte of a list's end.
const END: u8 = 0;

// What is wrong with a list, whatever its records are.
#[derive(Clone, Copy, PartialEq, Eq, Debug)]
pub enum Fault {
    // A record of no kind that is known.
    Unknown,
    // It goes on after its end.
    More,
}

impl fmt::Display for Fault {
    fn fmt<W: fmt::Write>(&self, f: &mut fmt::Formatter<W>) -> fmt::Result {
        f.write_str(match self {
            Fault::Unknown => "unknown record",
            Fault::More => "more after the end",
        })
    }
}

// The records up to the end, each by its first byte.
pub fn records<R: Read, E: From<CutShort>, F: FnMut(&mut R, u8) -> Result<(), E>>(
    input: &mut R,
    mut record: F,
) -> Result<(), E>
    requires { (state : F) (input : _) (first : _) → F.pre state input first }
{
    turns(
        || -> Flow<E>
            requires { (state : F) (input : _) (first : _) → F.pre state input first }
        {
            match take_byte(input).ok_or(CutShort)? {
                END => Ok(ControlFlow::Break(())),
                first => {
                    record(input, first)?;
                    Ok(ControlFlow::Continue(()))
                }
            }
        },
    )
}

// After the end, which nothing follows.
pub fn end(input: &mut impl Read) -> Result<(), Fault>
    ensures { IfErr result (λ fault. fault ≡ Fault.More) }
{
    match take_byte(input) {
        Some(_) => Err(Fault::More),
        None => Ok(()),
    }
}

// How many answers differ from the stored ones.
#[derive(Clone, Copy, Default)]
pub struct Apart {
    // Told or not.
    count: u64,
}

impl fmt::Display for Apart {
    fn fmt<W: fmt::Write>(&self, f: &mut fmt::Formatter<W>) -> fmt::Result {
        let count = self.count;
        write!(f, "{count} apart")
    }
}

impl Apart {
    // One more; only the first twenty are told.
    pub fn add<F: FnOnce()>(&mut self, tell: F)
        requires { F.IsAlwaysCallable tell }
        ensures { self.new.count ≡ (self.old.count + 1) % 2 ^ 64 }
    {
        if self.count < 20 {
            tell();
        }
        self.count = self.count.wrapping_add(1);
    }
}

// What a replay comes to, or what is wrong with the list. What cannot be written is left out.
pub fn tell<T: Display + Drop, E: Display + Drop>(rt: &impl Print, ended: Result<T, E>) {
    let _ = match ended {
        Ok(tally) => rt.println(tally),
        Err(fault) => rt.println(fault),
    };
}
