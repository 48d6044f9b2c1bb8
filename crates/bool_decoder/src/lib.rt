// The boolean decoder of bool_decoder.rs: bools, literals, signed literals, position and snapshot; and beyond it the bits past the end.
// Inner reads ask for room for the bools; the public ones test the limits first, and refuse. Their answers carry the bits past the end too.
// The inner reads are marked to be inlined: a decoder that no call is handed a pointer to stays in registers.
#![tactic(auto)]

ghost use Rattle.std.specs.Prelude.{◌≡◌, ◌+◌, ◌-◌, ◌*◌, ◌^◌, ◌<◌, ◌≤◌, min};
ghost use Rattle.rfc6386.specs.Decoder.{split, refusal_of};
ghost use Rattle.rfc6386.specs.Reads.{signed};
ghost use Rattle.bool_decoder.specs.Window.{Held, v_of, v_after, limit_of, Over};
ghost use Rattle.bool_decoder.specs.Refusal.{number_of, refused_by};

use bare::{BareDecoder, within};
use bitstream_utils::byte_at;

pub mod bare;
mod norm;
pub mod reads;
pub mod zeros;

// The state of RFC 6386 section 7.2, but for the area: what can be kept of a decoder while its area is moved or lent to others.
#[derive(Clone, Copy)]
pub struct Window {
    // R, from 128 to 255 between reads.
    range: u32,
    // A split of this or more tells a 0 by itself: a function of `value`, kept so that most bools need no window.
    limit: u32,
    // The window on V, whose whole part is its top 8 bits.
    value: u64,
    // How often R was doubled; it fixes how many bytes have come in.
    doublings: u32,
    // How many bools were read.
    bools: u32,
}

// A decoder over an area. That it is fresh, or was left by reads over that area, is a fact of its type.
#[derive(Clone, Copy)]
pub struct BoolDecoder<'a> {
    area: &'a [u8],
    window: Window,
    ghost over: { Over area.now window },
}

// A capture of the decoder's state, for the next decoding step.
#[derive(Clone, Copy, PartialEq, Eq, Debug)]
pub struct BoolDecoderState {
    // R.
    pub range: u8,
    // The whole part of V.
    pub value: u8,
    // How many bits of the byte that is being read are left.
    pub count: u8,
}

// What was read, and how many bits the decoder has then gone past the area's end.
#[derive(Clone, Copy, PartialEq, Eq, Debug)]
pub struct Read<T> {
    // What was read.
    pub value: T,
    // The bits past the end.
    pub past: u32,
}

// Why the bare decoder refuses a read. The limits are tested in the order 6, 7, 4, 8.
#[derive(Clone, Copy, PartialEq, Eq, Debug)]
pub enum ReadRefusal {
    // The area has no byte.
    EmptyArea,
    // The area has 2 ^ 28 bytes or more.
    AreaTooLong,
    // A literal of more than 31 bools.
    TooWide,
    // More than 2 ^ 24 bools over one area.
    TooManyBools,
}

impl ReadRefusal {
    // The number that names it outside.
    pub fn number(self) -> u32
        ensures { result ≡ number_of self }
    {
        match self {
            ReadRefusal::EmptyArea => 4,
            ReadRefusal::AreaTooLong => 6,
            ReadRefusal::TooWide => 7,
            ReadRefusal::TooManyBools => 8,
        }
    }
}

// S, which lies in 1 .. range - 1.
fn split_of(range: u32, probability: u8) -> u32
    requires { (128 ≤ range) × (range < 256) }
    ensures { (result ≡ split range probability) × (0 < result) × (result < range) }
{
    1 + (range - 1) * (probability as u32) / 256
}

// S at even chances: either part is brought back by one doubling, or is 128.
fn half_of(range: u32) -> u32
    requires { (128 ≤ range) × (range < 256) }
    ensures { (result ≡ split range 128) × (64 ≤ result) × (result ≤ 128) × (64 ≤ range - result) × (range - result < 128) }
{
    (range + 1) / 2
}

// The split where the window has V's whole part.
fn bigsplit(split: u32) -> u64
    requires { split < 256 }
    ensures { result ≡ split * 2 ^ 56 }
{
    (split as u64) << 56
}

// The limit of a window.
fn limit_of(value: u64) -> u32
    ensures { result ≡ limit_of value }
{
    let top = (value >> 56) as u32;
    if top < 127 { 128 } else { top + 1 }
}

// The window after `shift` doublings, which drop what leaves it; a byte comes in where eight bits are free.
fn fill(area: &[u8], value: u64, doublings: u32, shift: u32) -> u64
    requires { Held area.now doublings (v_of area.now doublings value) value × (doublings < 2 ^ 31) × (shift ≤ 7) }
    ensures { Held area.now (doublings + shift) (v_after area.now doublings value shift) result }
{
    let free = doublings % 8 + shift;
    let moved = value << shift;
    if free < 8 {
        return moved;
    }
    let byte = byte_at(area, ((doublings + shift) / 8 + 7) as usize) as u64;
    moved + (byte << (free - 8))
}

// A magnitude with its sign.
pub fn signed_of(magnitude: u32, sign: bool) -> i32
    requires { magnitude < 2 ^ 31 }
    ensures { result ≡ signed sign magnitude }
{
    let value = magnitude as i32;
    if sign { -value } else { value }
}

// Whether a read of this width is within the limits, of either engine. A signed literal wants one bool beside its width. Public for who
// wants to know it before a read.
pub fn check_limits(size: usize, width: u32, extra: u32, bools: u32) -> Result<(), ReadRefusal>
    ensures { refused_by result ≡ refusal_of size width (width + extra) bools }
{
    let wanted = (width as u64) + (extra as u64);
    if BoolDecoder::AREA_LIMIT <= size {
        return Err(ReadRefusal::AreaTooLong);
    }
    if BoolDecoder::WIDEST < width {
        return Err(ReadRefusal::TooWide);
    }
    if size == 0 && 0 < wanted {
        return Err(ReadRefusal::EmptyArea);
    }
    if BoolDecoder::MOST_BOOLS < (bools as u64) + wanted {
        return Err(ReadRefusal::TooManyBools);
    }
    Ok(())
}

// In bits, of an area of `size` bytes: the doublings, or the area's end where that comes before them.
fn position_at(size: usize, doublings: u32) -> u32
    ensures { result ≡ min doublings (8 * size) }
{
    if ((doublings / 8) as usize) < size {
        doublings
    } else {
        (size * 8) as u32
    }
}

// In bits: how far the doublings have gone past the area's end, where the position has stopped; 0 before it.
fn past_at(size: usize, doublings: u32) -> u32
    ensures { result ≡ doublings - 8 * size }
{
    let at = position_at(size, doublings);
    doublings - at
}

impl Window {
    ghost use Rattle.std.specs.Prelude.{◌≡◌};
    ghost use Rattle.rfc6386.specs.Decoder.{bits, position, past};
    ghost use Rattle.bool_decoder.specs.Window.{state_of};

    // How many bools were read.
    pub fn bools(self) -> u32
        ensures { result ≡ self.bools }
    {
        self.bools
    }

    // In bits; it stops at the area's end.
    #[tactic(auto, unfolding(rfc6386::specs::Decoder::position))]
    pub fn pos(self, area: &[u8]) -> u32
        ensures { result ≡ position (bits area.now) (state_of area.now self) }
    {
        position_at(area.len(), self.doublings)
    }

    // In bits: how far the doublings have gone past the area's end.
    #[tactic(auto, unfolding(rfc6386::specs::Decoder::past))]
    pub fn past(self, area: &[u8]) -> u32
        ensures { result ≡ past (bits area.now) (state_of area.now self) }
    {
        past_at(area.len(), self.doublings)
    }
}

impl<'a> BoolDecoder<'a> {
    ghost use Rattle.std.specs.Prelude.{◌≡◌, ◌+◌, ◌≤◌};
    ghost use Rattle.rfc6386.specs.Reads.{bool, flag};
    ghost use Rattle.bool_decoder.specs.Model.{bools_of, position_of, past_of, Room, Ran, Lit, Sgn, Fresh, Seen};
    ghost use Rattle.bool_decoder.specs.Answer.{BoolMeets, UintMeets, SintMeets};

    // R at the start, of either engine.
    pub const START_RANGE: u32 = 255;

    // The widest literal that is read.
    const WIDEST: u32 = 31;

    // The most bools that are read over one area, 2 ^ 24.
    const MOST_BOOLS: u64 = 16777216;

    // No area has as many bytes, 2 ^ 28.
    const AREA_LIMIT: usize = 268435456;

    // At the area's start: V is its first bytes, R is 255.
    pub fn new(area: &'a [u8]) -> Self
        ensures { Fresh area.entry result }
    {
        // Eight reads: a copy whose length is known at run time alone would ask a host for `memcpy`.
        let first = [
            byte_at(area, 0),
            byte_at(area, 1),
            byte_at(area, 2),
            byte_at(area, 3),
            byte_at(area, 4),
            byte_at(area, 5),
            byte_at(area, 6),
            byte_at(area, 7),
        ];
        let value = u64::from_be_bytes(first);
        let window = Window {
            range: BoolDecoder::START_RANGE,
            limit: limit_of(value),
            value,
            doublings: 0,
            bools: 0,
        };
        BoolDecoder { area, window }
    }

    // The decoder without its area.
    pub fn window(&self) -> Window
        ensures { result ≡ self.now.window }
    {
        self.window
    }

    // The decoder again, over an area of the bytes that the window was read over.
    pub fn resume(area: &'a [u8], window: Window) -> Self
        requires { Over area.now window }
        ensures area { result.area ≡ area.entry }
        ensures window { result.window ≡ window }
    {
        BoolDecoder { area, window }
    }

    // A bool at the chance probability / 256 of a 0: section 7.2.
    #[inline(always)]
    pub fn read_bit(&mut self, probability: u8) -> bool
        requires { Room self.old 1 }
        ensures { Ran (bool probability) self.old result self.new 1 }
    {
        let old = self.window;
        let split = split_of(old.range, probability);
        if old.limit <= split {
            self.window.range = split;
            self.window.bools += 1;
            return false;
        }
        let big = bigsplit(split);
        if big <= old.value {
            let range = old.range - split;
            let shift = norm::norm(range);
            let value = fill(self.area, old.value - big, old.doublings, shift);
            self.window = Window {
                range: range << shift,
                limit: limit_of(value),
                value,
                doublings: old.doublings + shift,
                bools: old.bools + 1,
            };
            true
        } else {
            let shift = norm::norm(split);
            let value = fill(self.area, old.value, old.doublings, shift);
            self.window = Window {
                range: split << shift,
                limit: limit_of(value),
                value,
                doublings: old.doublings + shift,
                bools: old.bools + 1,
            };
            false
        }
    }

    // A bool at even chances: it doubles once, or not at all. The limit is made of the window each time, so that several in a row make it
    // once.
    #[inline(always)]
    pub fn read_flag(&mut self) -> bool
        requires { Room self.old 1 }
        ensures { Ran flag self.old result self.new 1 }
    {
        let old = self.window;
        let split = half_of(old.range);
        let big = bigsplit(split);
        if big <= old.value {
            let value = fill(self.area, old.value - big, old.doublings, 1);
            self.window = Window {
                range: (old.range - split) * 2,
                limit: limit_of(value),
                value,
                doublings: old.doublings + 1,
                bools: old.bools + 1,
            };
            true
        } else if 128 <= split {
            self.window.range = split;
            self.window.limit = limit_of(old.value);
            self.window.bools = old.bools + 1;
            false
        } else {
            let value = fill(self.area, old.value, old.doublings, 1);
            self.window = Window {
                range: split * 2,
                limit: limit_of(value),
                value,
                doublings: old.doublings + 1,
                bools: old.bools + 1,
            };
            false
        }
    }

    // nbits bools at even chances, the high bit first.
    #[inline(always)]
    pub fn read_literal(&mut self, nbits: u32) -> u32
        requires { (nbits ≤ 31) × Room self.old nbits }
        ensures { Lit nbits self.old result self.new }
    {
        // A copy that nothing points to, so that the loop keeps it in registers.
        let mut local = *self;
        let mut value: u32 = 0;
        for _ in 0..nbits {
            value = value * 2 + u32::from(local.read_flag());
        }
        *self = local;
        value
    }

    // A magnitude of nbits bools, then a sign.
    #[inline(always)]
    pub fn read_signed(&mut self, nbits: u32) -> i32
        requires { (nbits ≤ 31) × Room self.old (nbits + 1) }
        ensures { Sgn nbits self.old result self.new }
    {
        let magnitude = self.read_literal(nbits);
        let sign = self.read_flag();
        signed_of(magnitude, sign)
    }

    // How many bools were read.
    pub fn bools(&self) -> u32
        ensures { result ≡ bools_of self.now }
    {
        self.window.bools()
    }

    // In bits; it stops at the area's end.
    pub fn pos(&self) -> u32
        ensures { result ≡ position_of self.now }
    {
        self.window.pos(self.area)
    }

    // In bits: how far the doublings have gone past the area's end.
    pub fn past(&self) -> u32
        ensures { result ≡ past_of self.now }
    {
        self.window.past(self.area)
    }

    // The range, the whole part of V and the count.
    pub fn snapshot(&self) -> BoolDecoderState
        ensures { Seen self.now result }
    {
        BareDecoder::snapshot(self)
    }

    // A value that was just read, with the bits past the end beside it. Inlined, so that a record is moved once.
    #[inline(always)]
    pub fn with_past<T>(&self, value: T) -> Read<T>
        ensures value { result.value ≡ value }
        ensures past { result.past ≡ past_of self.now }
    {
        BareDecoder::with_past(self, value)
    }

    // The bare decoder, by the Rust's names: each read refuses before any bool is read.
    // A bool at a chance.
    pub fn read_bool_with_prob(&mut self, probability: u8) -> Result<Read<bool>, ReadRefusal>
        ensures { BoolMeets self.old probability result self.new }
    {
        self.ask_bool(probability)
    }

    // A bool at even chances.
    #[tactic(auto, unfolding(rfc6386::specs::Reads::flag))]
    pub fn read_bool(&mut self) -> Result<Read<bool>, ReadRefusal>
        ensures { BoolMeets self.old 128 result self.new }
    {
        within(self, 1, 0, |dec| dec.read_flag())
    }

    // A literal of nbits bools.
    pub fn read_uint(&mut self, nbits: u32) -> Result<Read<u32>, ReadRefusal>
        ensures { UintMeets self.old nbits result self.new }
    {
        self.ask_plain(nbits)
    }

    // A signed literal: nbits bools of magnitude, then a sign.
    pub fn read_sint(&mut self, nbits: u32) -> Result<Read<i32>, ReadRefusal>
        ensures { SintMeets self.old nbits result self.new }
    {
        self.ask_signed(nbits)
    }
}

impl BareDecoder for BoolDecoder<'_> {
    ghost use Rattle.bool_decoder.specs.Model.{state_of};

    ghost area = { λ d. d.area };

    ghost state = { state_of };

    fn size(&self) -> usize {
        self.area.len()
    }

    fn doublings(&self) -> u32 {
        self.window.doublings
    }

    fn bools(&self) -> u32 {
        self.window.bools
    }

    fn range(&self) -> u8 {
        self.window.range as u8
    }

    fn whole(&self) -> u8 {
        (self.window.value >> 56) as u8
    }

    fn take_bool(&mut self, prob: u8) -> bool {
        self.read_bit(prob)
    }

    fn take_plain(&mut self, num_bits: u32) -> u32 {
        self.read_literal(num_bits)
    }

    fn take_signed(&mut self, num_bits: u32) -> i32 {
        self.read_signed(num_bits)
    }
}
