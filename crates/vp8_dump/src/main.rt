// Reads frames from standard input (`vp8_show::input`), parses them with one parser in the mode that was asked for last, at first the
// Rust's, and prints a line for each (`vp8_show::dump`). A frame that is only to be looked at leaves the parser alone. A bad record gets
// a line that says what is wrong, and ends the run.
#![tactic(auto)]

ghost use Rattle.std.specs.Prelude.{IfOk, IfSome};
ghost use Rattle.vp8_show.specs.Input.{IsFrameIn};

use lines::Fault;
use lines::run::{Flow, Line, tell_each};
use std::io::Read;
use std::ops::ControlFlow;
use vp8_records::{Mode, Parser};
use vp8_show::input;
use vp8_show::input::Record;

// The parser, the mode, and whether the next frame is only looked at.
#[derive(Clone, Copy)]
struct Run {
    parser: Parser,
    mode: Mode,
    looks: bool,
}

impl Run {
    fn new() -> Run {
        Run {
            parser: Parser::new(),
            mode: Mode::Rust,
            looks: false,
        }
    }

    // The next record; none where the input ends, which it may not before a frame that is to be looked at.
    fn next<'a>(
        &self,
        input: &mut impl Read,
        buf: &'a mut [u8],
    ) -> Result<Option<Record<'a>>, Fault>
        ensures { IfOk result (λ next. IfSome next (IsFrameIn buf.old)) }
    {
        let record = input::take(input, buf)?;
        if self.looks && record.is_none() {
            return Err(Fault::CutShort);
        }
        Ok(record)
    }

    // A frame and its line.
    fn frame(&mut self, bytes: &[u8], out: &mut Line) {
        if self.looks {
            self.looks = false;
            vp8_show::dump::look(out, vp8_parser::peek(bytes));
        } else {
            let parsed = vp8_parser::parse_in(self.parser, bytes, self.mode);
            self.parser = parsed.parser;
            vp8_show::dump::line(out, parsed);
        }
        out.byte(b'\n');
    }
}

// A line that cannot be written ends the run, and the status stays 0.
fn main(rt: HostRuntime) {
    let mut input = rt.reader();
    let mut run = Run::new();
    let mut buffer = [0u8; 65536];
    let _ = tell_each(&rt, |out: &mut Line| -> Flow<Fault> {
        match run.next(&mut input, &mut buffer)? {
            Some(Record::Frame(bytes)) => run.frame(bytes, out),
            Some(Record::Fresh) => run.parser = Parser::new(),
            Some(Record::In(mode)) => run.mode = mode,
            Some(Record::Look) => run.looks = true,
            None => return Ok(ControlFlow::Break(())),
        }
        Ok(ControlFlow::Continue(()))
    });
}
