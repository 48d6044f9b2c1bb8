// What the two programs over scripts share: scripts from standard input, and a line for each. A bad script gets a line that says what is
// wrong, and ends the run.
use crate::{Engine, input, line};
use lines::run::{Flow, Line, tell_each};
use std::ops::ControlFlow;

// The whole program, on an engine. A line that cannot be written ends it, and the status stays 0.
pub fn run(rt: &(impl Input + Print), engine: Engine) {
    let mut input = rt.reader();
    let mut area = [0u8; 4096];
    let mut reads = [0u8; 2048];
    let _ = tell_each(rt, |out: &mut Line| -> Flow<input::Fault> {
        let Some(script) = input::take(&mut input, &mut area, &mut reads)? else {
            return Ok(ControlFlow::Break(()));
        };
        line(script.area, script.reads, engine, out);
        out.byte(b'\n');
        Ok(ControlFlow::Continue(()))
    });
}
