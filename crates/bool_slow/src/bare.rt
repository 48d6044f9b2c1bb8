// The slow decoder as its callers have it: the numbers and the reads that it gives. All else is the trait's, the same of either engine.
use crate::SlowDecoder;
pub use bool_decoder::bare::{BareDecoder, Shown};

impl BareDecoder for SlowDecoder<'_> {
    ghost use Rattle.bool_slow.specs.Slow.{area_of, state_of};

    ghost area = { area_of };

    ghost state = { state_of };

    fn size(&self) -> usize {
        self.area.len()
    }

    // Eight doublings for each byte fetched after the first two, and those since.
    fn doublings(&self) -> u32 {
        8 * (self.hand.input - 2) + self.hand.bit_count
    }

    fn bools(&self) -> u32 {
        self.hand.bools
    }

    fn range(&self) -> u8 {
        self.hand.range as u8
    }

    // The byte before the point.
    fn whole(&self) -> u8 {
        (self.hand.value / 256) as u8
    }

    fn take_bool(&mut self, prob: u8) -> bool {
        self.read_bool(prob)
    }

    fn take_plain(&mut self, num_bits: u32) -> u32 {
        self.read_literal(num_bits)
    }

    fn take_signed(&mut self, num_bits: u32) -> i32 {
        self.read_signed(num_bits)
    }
}
