// Scripts of the bare decoder from standard input, run on the window: `bool_script::program`.
#![tactic(auto)]

use bool_script::Engine;

fn main(rt: HostRuntime) {
    bool_script::program::run(&rt, Engine::Window);
}
