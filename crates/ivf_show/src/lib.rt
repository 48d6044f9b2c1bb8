// What the two programs over recordings share: a recording from standard input, at most 65,536 bytes, each of its frames to one parser,
// the lines of each frame with its index in front, and at the end the refusal, if there is one.
#![tactic(auto)]

use ivf::WalkRefusal;
use vp8_records::{Mode, Parser};

fn tell_refusal(rt: &impl Print, ended: Result<(), WalkRefusal>) {
    if let Err(refusal) = ended {
        let number = refusal.number();
        let _ = println!(rt; "refused {number}");
    }
}

// The frames of a recording, and why no more. Lists of 5,458 entries have room for every frame of so short a file: a record has 12 bytes
// at least.
fn tell_file(rt: &impl Print, file: &[u8], mode: Mode) {
    let mut offsets = [0u64; 5458];
    let mut lengths = [0u32; 5458];
    let played = vp8_recording::play_each(
        Parser::new(),
        file,
        &mut offsets,
        &mut lengths,
        mode,
        |i, answer| vp8_show::print::tell_numbered(rt, i as u64, answer),
    );
    tell_refusal(rt, played.walked.ended);
}

// The whole program, in a mode.
pub fn run(rt: &(impl Input + Print), mode: Mode) {
    lines::run::with_input(rt, |file| tell_file(rt, file, mode));
}
