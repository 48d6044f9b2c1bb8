// Scripts of the bare decoder from standard input, run on the slow engine: `bool_script::program`.
#![tactic(auto)]

use bool_script::Engine;

fn main(rt: HostRuntime) {
    bool_script::program::run(&rt, Engine::Slow);
}
