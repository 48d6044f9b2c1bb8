// The printing program, as the Rust reads frames: `frame_show`.
#![tactic(auto)]

use vp8_records::Mode;

fn main(rt: HostRuntime) {
    frame_show::run(&rt, Mode::Rust);
}
