// The reads that sub-headers are made of: under a flag that was read before, or under one of their own with another value where it is
// clear. By an `if` in each: one function over a closure is slower, since not every closure is inlined (docs/SPEED.md).
ghost use Rattle.std.specs.Prelude.{false, ◌+◌, ◌≤◌};
ghost use Rattle.rfc6386.specs.Reads.{flag, when, lit, sint, make, maybe, or_else};
ghost use Rattle.rfc6386.specs.Runs.{or};
ghost use Rattle.bool_decoder.specs.Model.{Room, Ran, Lit};

use crate::BoolDecoder;

impl BoolDecoder<'_> {
    // A flag where `on` is set, false where it isn't.
    #[inline(always)]
    pub fn flag_if(&mut self, on: bool) -> bool
        requires { Room self.old 1 }
        ensures { Ran (when on flag false) self.old result self.new 1 }
    {
        if on { self.read_flag() } else { false }
    }

    // A literal that fits a byte: RFC 6386 section 8, L(n).
    #[inline(always)]
    pub fn read_byte(&mut self, nbits: u32) -> u8
        requires { (nbits ≤ 8) × Room self.old nbits }
        ensures { Lit nbits self.old result self.new }
    {
        self.read_literal(nbits) as u8
    }

    // The same where `on` is set, 0 where it isn't.
    #[inline(always)]
    pub fn byte_if(&mut self, on: bool, nbits: u32) -> u8
        requires { (nbits ≤ 8) × Room self.old nbits }
        ensures { Ran (when on (lit nbits) 0) self.old result self.new nbits }
    {
        if on { self.read_byte(nbits) } else { 0 }
    }

    // A magnitude and a sign where their flag is set, `other` where it isn't.
    #[inline(always)]
    pub fn sint_or(&mut self, nbits: u32, other: i8) -> i8
        requires { (nbits ≤ 7) × Room self.old (nbits + 2) }
        ensures { Ran (or_else (sint nbits) other) self.old result self.new (nbits + 2) }
    {
        if self.read_flag() {
            self.read_signed(nbits) as i8
        } else {
            other
        }
    }

    // A byte where its bool, at the chance p, is set, `other` where it isn't.
    #[inline(always)]
    pub fn byte_or(&mut self, p: u8, other: u8) -> u8
        requires { Room self.old 9 }
        ensures { Ran (make (λ u. or u other) (maybe p (lit 8))) self.old result self.new 9 }
    {
        if self.read_bit(p) {
            self.read_byte(8)
        } else {
            other
        }
    }
}
