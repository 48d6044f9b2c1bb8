// The printing program in the standard's mode, with the frame read as RFC 6386 has it: `frame_show`.
#![tactic(auto)]

use vp8_records::Mode;

fn main(rt: HostRuntime) {
    frame_show::run(&rt, Mode::Standard);
}
