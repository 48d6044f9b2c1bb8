// A recording from standard input through a fresh parser, in the standard's mode: `ivf_show`.
#![tactic(auto)]

use vp8_records::Mode;

fn main(rt: HostRuntime) {
    ivf_show::run(&rt, Mode::Standard);
}
