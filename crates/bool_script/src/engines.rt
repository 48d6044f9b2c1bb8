// A decoder of either engine, the window or the slow one: which of them an engine's name stands for.
ghost use Rattle.bool_script.specs.Engines.{Begins};

use crate::Engine;
use bool_decoder::BoolDecoder;
use bool_slow::SlowDecoder;

// A decoder of one of them.
#[derive(Clone, Copy)]
pub enum Decoder<'a> {
    // The window's.
    Window(BoolDecoder<'a>),
    // The slow one's.
    Slow(SlowDecoder<'a>),
}

// At the area's start.
pub fn fresh(engine: Engine, area: &[u8]) -> Decoder<'_>
    ensures { Begins engine area.entry result }
{
    match engine {
        Engine::Window => Decoder::Window(BoolDecoder::new(area)),
        Engine::Slow => Decoder::Slow(SlowDecoder::init_bool_decoder(area)),
    }
}
