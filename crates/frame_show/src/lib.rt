// What the two printing programs share: one frame from standard input, at most 65,536 bytes, parsed by a fresh parser, and its answer in
// words.
#![tactic(auto)]

use vp8_records::{Mode, Parser};

// The whole program, in a mode.
pub fn run(rt: &(impl Input + Print), mode: Mode) {
    lines::run::with_input(rt, |frame| {
        vp8_show::print::tell(rt, vp8_parser::parse_in(Parser::new(), frame, mode));
    });
}
