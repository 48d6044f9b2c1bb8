// A decoder as its callers have it, whichever engine it is: each read tests the limits first and refuses before any bool is read, which
// leaves the decoder as it was; and what a decoder shows. An engine gives its numbers and its reads; all else is the same of every engine.
ghost use Rattle.rfc6386.specs.Decoder.{State};
ghost use Rattle.std.specs.Borrow.{Bor};
ghost use Rattle.std.specs.Prelude.{ℕ, ◌+◌, ◌≡◌, List};
ghost use Rattle.std.specs.Fn.{FnOnceTakesAtMut, FnOnceReturnsAtMut};
ghost use Rattle.bool_decoder.specs.Bare.{refusal, Within};

use crate::{BoolDecoderState, Read, ReadRefusal, check_limits, past_at, position_at};

// What the outside may see of a decoder.
#[derive(Clone, Copy, PartialEq, Eq, Debug)]
pub struct Shown {
    // In bits; it stops at the area's end.
    pub position: u32,
    // In bits: how far beyond that end the decoder has gone.
    pub past: u32,
    // The snapshot: the range.
    pub range: u8,
    // The byte before the point.
    pub value: u8,
    // How many bits of the byte that is being read are left.
    pub count: u8,
    // How many bools were read.
    pub bools: u32,
}

// A decoder over an area, which stands for a state of the definition's.
pub trait BareDecoder {
    ghost use Rattle.std.specs.Prelude.{◌≡◌, ◌+◌, ◌≤◌, length};
    ghost use Rattle.rfc6386.specs.Decoder.{bits, whole};
    ghost use Rattle.rfc6386.specs.Reads.{bool, lit, sint};
    ghost use Rattle.bool_decoder.specs.Bare.{Room, Ran, Meets, position_of, past_of, seen_of, shown_of};

    // Its area.
    ghost area: { Self → Bor (List ℕ) };

    // The state that it stands for.
    ghost state: { Self → State };

    // How many bytes its area has.
    fn size(&self) -> usize
        ensures { result ≡ length (area self.now).now };

    // How often R was doubled.
    fn doublings(&self) -> u32
        ensures { result ≡ (state self.now).c };

    // How many bools were read.
    fn bools(&self) -> u32
        ensures { result ≡ (state self.now).n };

    // R.
    fn range(&self) -> u8
        ensures { result ≡ (state self.now).r };

    // The whole part of V.
    fn whole(&self) -> u8
        ensures { result ≡ whole (bits (area self.now).now) (state self.now) };

    // The engine's own reads, which ask for room: a bool at the chance prob / 256 of a 0.
    fn take_bool(&mut self, prob: u8) -> bool
        requires { Room area state self.old 1 }
        ensures { Ran area state (bool prob) self.old result self.new 1 };

    // A literal of num_bits bools.
    fn take_plain(&mut self, num_bits: u32) -> u32
        requires { (num_bits ≤ 31) × Room area state self.old num_bits }
        ensures { Ran area state (lit num_bits) self.old result self.new num_bits };

    // A magnitude of num_bits bools, then a sign.
    fn take_signed(&mut self, num_bits: u32) -> i32
        requires { (num_bits ≤ 31) × Room area state self.old (num_bits + 1) }
        ensures { Ran area state (sint num_bits) self.old result self.new (num_bits + 1) };

    // In bits; it stops at the area's end.
    #[tactic(auto, unfolding(rfc6386::specs::Decoder::position))]
    final fn pos(&self) -> u32
        ensures { result ≡ position_of area state self.now }
    {
        position_at(self.size(), self.doublings())
    }

    // In bits: how far the doublings have gone past the area's end.
    #[tactic(auto, unfolding(rfc6386::specs::Decoder::past))]
    final fn past(&self) -> u32
        ensures { result ≡ past_of area state self.now }
    {
        past_at(self.size(), self.doublings())
    }

    // The count follows the doublings, even where the position has stopped.
    #[tactic(auto, unfolding(rfc6386::specs::Decoder::count_of))]
    final fn snapshot(&self) -> BoolDecoderState
        ensures { result ≡ seen_of (bits (area self.now).now) (state self.now) }
    {
        BoolDecoderState {
            range: self.range(),
            value: self.whole(),
            count: ((8 - self.doublings() % 8) % 8) as u8,
        }
    }

    // What it shows.
    final fn shown(&self) -> Shown
        ensures { result ≡ shown_of (bits (area self.now).now) (state self.now) }
    {
        let seen = self.snapshot();
        Shown {
            position: self.pos(),
            past: self.past(),
            range: seen.range,
            value: seen.value,
            count: seen.count,
            bools: self.bools(),
        }
    }

    // A value that was just read, with the bits past the end beside it. Inlined, so that a record is moved once.
    #[inline(always)]
    final fn with_past<T>(&self, value: T) -> Read<T>
        ensures value { result.value ≡ value }
        ensures past { result.past ≡ past_of area state self.now }
    {
        let past = self.past();
        Read { value, past }
    }

    // The reads of the outside, within the limits: a bool at the chance prob / 256 of a 0.
    final fn ask_bool(&mut self, prob: u8) -> Result<Read<bool>, ReadRefusal>
        ensures { Meets area state (bool prob) self.old 1 1 result self.new }
    {
        within(self, 1, 0, |dec| dec.take_bool(prob))
    }

    // A literal of num_bits bools.
    final fn ask_plain(&mut self, num_bits: u32) -> Result<Read<u32>, ReadRefusal>
        ensures { Meets area state (lit num_bits) self.old num_bits num_bits result self.new }
    {
        within(self, num_bits, 0, |dec| dec.take_plain(num_bits))
    }

    // A magnitude of num_bits bools, then a sign.
    final fn ask_signed(&mut self, num_bits: u32) -> Result<Read<i32>, ReadRefusal>
        ensures { Meets area state (sint num_bits) self.old num_bits (num_bits + 1) result self.new }
    {
        within(self, num_bits, 1, |dec| dec.take_signed(num_bits))
    }
}

// Where a read of this width is within the limits, what `take` reads, with the bits past the end beside it. A signed literal wants one bool
// beside its width.
pub(crate) fn within<D: BareDecoder, T, F: FnOnce(&mut D) -> T>(
    dec: &mut D,
    width: u32,
    extra: u32,
    take: F,
) -> Result<Read<T>, ReadRefusal>
    requires { refusal D.area D.state dec.old width (width + extra) ≡ 0 → FnOnceTakesAtMut F.FnOnce take dec.old }
    ensures { Within D.area D.state (FnOnceReturnsAtMut F.FnOnce take dec.old) dec.old width (width + extra) result dec.new }
{
    check_limits(dec.size(), width, extra, dec.bools())?;
    let value = take(dec);
    Ok(dec.with_past(value))
}
