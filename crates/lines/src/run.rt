// How the programs go over their input, and what they print of it.
ghost use Rattle.std.specs.Prelude.{◌≡◌, ◌≤◌, length};
ghost use Rattle.lines.specs.Turns.{Turned};

use crate::{show, take_all};
use std::fmt::Display;
use std::io;
use std::ops::ControlFlow;
use text::Text;

// Whether to go on, or what is wrong.
pub type Flow<E> = Result<ControlFlow<()>, E>;

// Turns, until one says to stop or fails. Nothing says that an input ends, so there is a number of them that no run uses up.
pub fn turns<E, F: FnMut() -> Flow<E>>(mut turn: F) -> Result<(), E>
    requires { F.IsAlwaysCallable turn }
    ensures { Turned F.step turn result }
{
    for _ in 0..u64::MAX {
        if turn()?.is_break() {
            return Ok(());
        }
    }
    Ok(())
}

// Room for the longest line of any program: that of 1,024 reads of a script has under 26,000 bytes.
pub type Line = Text<[u8; 32768]>;

// What each turn puts into a line, which is empty before it, printed. A turn that fails ends the run with a line that says what is wrong;
// a line that cannot be written ends it too.
pub fn tell_each<E: Display + Drop, F: FnMut(&mut Line) -> Flow<E>>(
    rt: &impl Print,
    mut turn: F,
) -> io::Result<()>
    requires { (state : F) (line : _) → line.now.count ≡ 0 → F.pre state line }
{
    let mut out = Line::new();
    turns(
        || -> Flow<io::Error>
            requires { (state : F) (line : _) → line.now.count ≡ 0 → F.pre state line }
        {
            out.clear();
            match turn(&mut out) {
                Ok(flow) => {
                    show(rt, out.as_bytes())?;
                    Ok(flow)
                }
                Err(fault) => {
                    rt.println(fault)?;
                    Ok(ControlFlow::Break(()))
                }
            }
        },
    )
}

// The whole input, of at most 65,536 bytes, is given on, or a line says what is wrong with it.
pub fn with_input<F: FnOnce(&[u8])>(rt: &(impl Input + Print), with: F)
    requires { (bytes : _) → length bytes.now ≤ 65536 → F.pre with bytes }
{
    let mut buffer = [0u8; 65537];
    match take_all(&mut rt.reader(), &mut buffer) {
        Ok(bytes) => with(bytes),
        Err(fault) => {
            let _ = rt.println(fault);
        }
    }
}
