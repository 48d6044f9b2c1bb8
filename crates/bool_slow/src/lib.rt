// The boolean decoder of RFC 6386 section 7, to be read beside it: the names and the order of section 7.3, two bytes in hand, a byte
// fetched every eight doublings, a doubling at a time. It is proved to answer every read as `bool_decoder` does, whose window of 64 bits
// is quicker and harder to follow.
// It differs from that section in five things: past the area's end it fetches zeros; a doubling drops what reaches 256, which section 7.2
// takes to be zero and which in an area that begins with FF is not; a signed literal is another; bools are counted; and the input is the
// area and a place in it, in place of a pointer.
#![tactic(auto)]

pub mod bare;

ghost use Rattle.bool_slow.specs.Hand.{Over};

use bitstream_utils::byte_at;
use bool_decoder::{BoolDecoder, signed_of};

// Section 7.2, what the decoder maintains, but for the area: what can be kept of it while the area is moved or lent to others. Value and
// the bytes not read yet are what is left of the coded number above the left end of the interval.
#[derive(Clone, Copy)]
pub struct Hand {
    // Where the next byte to be read stands in the area.
    input: u32,
    // From 128 to 255 between reads, as the encoder's.
    range: u32,
    // The two bytes in hand: one before the point, one after it.
    value: u32,
    // How many bits were shifted out of value since a byte came in, at most 7.
    bit_count: u32,
    // How many bools were read.
    bools: u32,
}

// The struct of section 7.3, over an area. That it is fresh, or was left by reads over that area, is a fact of its type.
#[derive(Clone, Copy)]
pub struct SlowDecoder<'a> {
    area: &'a [u8],
    hand: Hand,
    ghost over: { Over area.now hand },
}

impl<'a> SlowDecoder<'a> {
    ghost use Rattle.std.specs.Prelude.{◌≡◌, ◌+◌, ◌≤◌};
    ghost use Rattle.rfc6386.specs.Reads.{bool};
    ghost use Rattle.bool_slow.specs.Slow.{Room, Ran, Lit, Sgn, Fresh};

    // Section 7.2, how the decoder is initialized; section 7.3, init_bool_decoder. The first 16 bits are in hand, and none is shifted out.
    pub fn init_bool_decoder(area: &'a [u8]) -> Self
        ensures { Fresh area.entry result }
    {
        let first = byte_at(area, 0) as u32;
        let second = byte_at(area, 1) as u32;
        let hand = Hand {
            input: 2,
            range: BoolDecoder::START_RANGE,
            value: first * 256 + second,
            bit_count: 0,
            bools: 0,
        };
        SlowDecoder { area, hand }
    }

    // The decoder without its area.
    pub fn hand(&self) -> Hand
        ensures { result ≡ self.now.hand }
    {
        self.hand
    }

    // The decoder again, over an area of the bytes that it was read over.
    pub fn resume(area: &'a [u8], hand: Hand) -> Self
        requires { Over area.now hand }
        ensures area { result.area ≡ area.entry }
        ensures hand { result.hand ≡ hand }
    {
        SlowDecoder { area, hand }
    }

    // Section 7.2, how a bool is decoded; section 7.3, read_bool.
    #[tactic(auto, using(crate::proofs::Bytes::fetches, crate::proofs::Bytes::stays))]
    fn read_bool(&mut self, prob: u8) -> bool
        requires { Room self.old 1 }
        ensures { Ran (bool prob) self.old result self.new 1 }
    {
        let mut d = self.hand;
        d.bools += 1;
        // The encoder's formula, in 1 .. range - 1; and the split where value has its byte before the point.
        let split = 1 + (d.range - 1) * (prob as u32) / 256;
        let bigsplit = split * 256;
        let bit = bigsplit <= d.value;
        if bit {
            // A one: the range is reduced, and the left end of the interval taken off.
            d.range -= split;
            d.value -= bigsplit;
        } else {
            // A zero: the range is reduced, and the left end stays.
            d.range = split;
        }
        // Range and value are doubled together until the range is 128 or more; two bytes of value are kept.
        while d.range < 128 {
            d.value = d.value * 2 % 65536;
            d.range *= 2;
            d.bit_count += 1;
            if d.bit_count == 8 {
                // New bits come in eight at a time.
                d.bit_count = 0;
                d.value += byte_at(self.area, d.input as usize) as u32;
                d.input += 1;
            }
        }
        self.hand = d;
        bit
    }

    // Section 7.3, read_literal: bools at even chances, from the high bit to the low.
    fn read_literal(&mut self, num_bits: u32) -> u32
        requires { (num_bits ≤ 31) × Room self.old num_bits }
        ensures { Lit num_bits self.old result self.new }
    {
        let mut value: u32 = 0;
        for _ in 0..num_bits {
            value = value * 2 + self.read_bool(128) as u32;
        }
        value
    }

    // A magnitude, then a sign, as the header's fields are coded (section 9.6). Section 7.3's begins with its sign; no field is one.
    fn read_signed(&mut self, num_bits: u32) -> i32
        requires { (num_bits ≤ 31) × Room self.old (num_bits + 1) }
        ensures { Sgn num_bits self.old result self.new }
    {
        let magnitude = self.read_literal(num_bits);
        let sign = self.read_bool(128);
        signed_of(magnitude, sign)
    }
}
