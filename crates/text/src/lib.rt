// Text in a buffer of fixed size, its own or a lent one: bytes, two hexadecimal digits a byte, numbers, templates. No input, no output.
// Each writer puts its bytes after those that are there, as far as the buffer goes. No public function has a premise but a buffer's own
// `put`, whose place lies within it.
#![tactic(auto)]

ghost use Rattle.std.specs.Prelude.{◌≡◌, ◌<◌, ℕ, List, length, min, set, take, replicate};
ghost use Rattle.text.specs.Text.{text, standing, put, puts};
ghost use Rattle.text.specs.Told.{told, Puts};
ghost use Rattle.text.specs.Digits.{glyph as Digits·glyph, hex_of, decimal_of, signed_of};
ghost use Rattle.text.specs.Template.{filled};
ghost use Rattle.text.specs.Lines.{numbered};

use std::convert::AsSlice;

// Where a text stands: bytes of a fixed number, each of which can be put.
pub trait Buffer: AsSlice<u8> {
    // Which bytes, where they are lent, so that who lent them learns what was put.
    ghost place: { Self → ℕ };

    // Puts one byte at a place.
    fn put(&mut self, at: usize, b: u8)
        requires { at < length (Self.items self.old) }
        ensures bytes { Self.items self.new ≡ set (Self.items self.old) at b }
        ensures place { place self.new ≡ place self.old };
}

// The text's own.
impl<const N: usize> Buffer for [u8; N] {
    ghost place = { λ _. 0 };

    fn put(&mut self, at: usize, b: u8) {
        self[at] = b;
    }
}

// A lent one.
impl<'a> Buffer for &'a mut [u8] {
    ghost place = { λ r. r.ghost_name };

    fn put(&mut self, at: usize, b: u8) {
        (**self)[at] = b;
    }
}

// The first `count` bytes of the buffer; all of it, and full, where count is more.
#[derive(Drop)]
pub struct Text<B: Buffer> {
    buffer: B,
    count: usize,
}

// The first n bytes of a buffer, where they stand; all of it where n is more.
pub fn part(out: &[u8], n: usize) -> &[u8]
    ensures { (result.now ≡ take n out.now) × (result.ref_ptr ≡ out.entry.ref_ptr) }
{
    &out[..n.min(out.len())]
}

fn glyph(d: u8) -> u8
    requires { d < 16 }
    ensures { result ≡ Digits·glyph d }
{
    if d < 10 { b'0' + d } else { b'a' + (d - 10) }
}

// One byte at a place, where the buffer has it; the place after it.
#[inline(always)]
fn put_at<B: Buffer>(buffer: &mut B, at: usize, b: u8) -> usize
    ensures { standing (B.place buffer.new) (B.items buffer.new) result
        ≡ put (standing (B.place buffer.old) (B.items buffer.old) at) b }
{
    if at < buffer.as_slice().len() {
        buffer.put(at, b);
        at + 1
    } else {
        at
    }
}

// The decimal digits of n from a place on, those before the last, and the last; the place after them, which is handed on and not kept, so
// that it stays in a register. It calls itself at most 19 deep.
#[tactic(auto, using(crate::proofs::Spelling::puts_one, crate::proofs::Spelling::puts_more))]
fn digits_at<B: Buffer>(buffer: &mut B, at: usize, n: u64) -> usize
    ensures { standing (B.place buffer.new) (B.items buffer.new) result
        ≡ puts (standing (B.place buffer.old) (B.items buffer.old) at) (decimal_of n) }
{
    let mut to = at;
    if n >= 10 {
        to = digits_at(buffer, at, n / 10);
    }
    put_at(buffer, to, b'0' + (n % 10) as u8)
}

impl<const N: usize> Text<[u8; N]> {
    // Nothing yet, in zeros.
    pub fn new() -> Self
        ensures { told (λ _. 0) (λ xs. xs) result ≡ text (replicate N 0) 0 }
    {
        Text::over([0; N])
    }
}

impl<B: Buffer> Text<B> {
    // Nothing yet, over what is in the buffer.
    pub fn over(buffer: B) -> Self
        ensures { told B.place B.items result ≡ standing (B.place buffer) (B.items buffer) 0 }
    {
        Text { buffer, count: 0 }
    }

    // Begins with the first `count` bytes of the buffer.
    pub fn after(buffer: B, count: usize) -> Self
        ensures { told B.place B.items result ≡ standing (B.place buffer) (B.items buffer) count }
    {
        Text { buffer, count }
    }

    // The text itself.
    pub fn as_bytes(&self) -> &[u8]
        ensures { result.now ≡ take self.now.count (B.items self.now.buffer) }
    {
        part(self.buffer.as_slice(), self.count)
    }

    // How many bytes of the buffer the text is; more than it has, where the text was begun so.
    pub fn count(&self) -> usize
        ensures { result ≡ self.now.count }
    {
        self.count
    }

    // Begins again, over the old text.
    pub fn clear(&mut self)
        ensures { told B.place B.items self.new ≡ standing (B.place self.old.buffer) (B.items self.old.buffer) 0 }
    {
        self.count = 0;
    }

    // The whole buffer, of which the text is the start.
    pub fn into_buffer(self) -> B
        ensures bytes { B.items result ≡ B.items self.buffer }
        ensures place { B.place result ≡ B.place self.buffer }
    {
        self.buffer
    }

    // One byte.
    pub fn byte(&mut self, b: u8)
        ensures { told B.place B.items self.new ≡ put (told B.place B.items self.old) b }
    {
        self.count = put_at(&mut self.buffer, self.count, b);
    }

    // All bytes of `src`.
    #[tactic(auto, using(crate::proofs::Puts::puts_nil, crate::proofs::Puts::puts_turn))]
    pub fn bytes(&mut self, src: &[u8])
        ensures { Puts B.place B.items self.old src.now self.new }
    {
        let mut at = self.count;
        for &b in src {
            at = put_at(&mut self.buffer, at, b);
        }
        self.count = at;
    }

    // Two digits a byte, in lower case.
    #[tactic(auto, using(crate::proofs::Puts::hex_nil, crate::proofs::Puts::hex_turn))]
    pub fn hex(&mut self, src: &[u8])
        ensures { Puts B.place B.items self.old (hex_of src.now) self.new }
    {
        let mut at = self.count;
        for &b in src {
            at = put_at(&mut self.buffer, at, glyph(b / 16));
            at = put_at(&mut self.buffer, at, glyph(b % 16));
        }
        self.count = at;
    }

    // The decimal digits of n, as few as hold it.
    pub fn decimal(&mut self, n: u64)
        ensures { Puts B.place B.items self.old (decimal_of n) self.new }
    {
        self.count = digits_at(&mut self.buffer, self.count, n);
    }

    // In decimal, with a minus sign below 0.
    pub fn signed(&mut self, z: i32)
        ensures { Puts B.place B.items self.old (signed_of z) self.new }
    {
        if z < 0 {
            self.byte(b'-');
        }
        self.decimal(u64::from(z.unsigned_abs()));
    }

    // A template: its words, and the numbers in decimal where its bars stand.
    pub fn fill(&mut self, template: &[u8], numbers: &[u32])
        ensures { Puts B.place B.items self.old (filled template.now numbers.now) self.new }
    {
        let mut at = self.count;
        let mut left = numbers;
        for &b in template {
            if b != b'|' {
                at = put_at(&mut self.buffer, at, b);
            } else if let [n, rest @ ..] = left {
                at = digits_at(&mut self.buffer, at, u64::from(*n));
                left = rest;
            }
        }
        self.count = at;
    }

    // Lines, each with the number and a space in front.
    pub fn number_lines(&mut self, n: u64, lines: &[u8])
        ensures { Puts B.place B.items self.old (numbered n lines.now) self.new }
    {
        let mut at = self.count;
        let mut begins = true;
        for &b in lines {
            if begins {
                at = digits_at(&mut self.buffer, at, n);
                at = put_at(&mut self.buffer, at, b' ');
            }
            at = put_at(&mut self.buffer, at, b);
            begins = b == b'\n';
        }
        self.count = at;
    }
}

// The same bytes put into a slice that is lent, after its first `at`; where the text then ends. So does whoever lends a text a slice: what
// the slice ends as is told by the text's own contracts.
pub fn bytes_at(out: &mut [u8], at: usize, src: &[u8]) -> usize
    ensures { text out.new result ≡ puts (text out.old at) src.now }
{
    let mut to = Text::after(out, at);
    to.bytes(src);
    to.count()
}
