// A recording from standard input through a fresh parser, as the Rust reads frames: `ivf_show`.
#![tactic(auto)]

use vp8_records::Mode;

fn main(rt: HostRuntime) {
    ivf_show::run(&rt, Mode::Rust);
}
