// Several numbers in a row, read over an array of old ones. The three loops differ in the read, and are not one loop that takes a closure:
// the checker makes no proof of a function of any N that passes one.
ghost use Rattle.std.proofs.Math.Option.{some};
ghost use Rattle.std.specs.Prelude.{[], ◌+◌, ◌*◌, ◌≤◌};
ghost use Rattle.rfc6386.specs.Reads.{when, lit, sint, make, times, maybe};
ghost use Rattle.bool_decoder.specs.Model.{Room, Ran};
ghost use Rattle.vp8_fields.specs.Rows.{onto};

use bool_decoder::BoolDecoder;

// Signed numbers, each kept where its flag is clear.
#[inline(always)]
pub fn sints_or<const N: usize>(dec: &mut BoolDecoder, nbits: u32, old: [i8; N]) -> [i8; N]
    requires { (nbits ≤ 7) × Room dec.old ((nbits + 2) * N) }
    ensures { Ran (onto old.entry (times N (maybe 128 (sint nbits)))) dec.old result dec.new ((nbits + 2) * N) }
{
    let mut values = old;
    for value in values.iter_mut() {
        *value = dec.sint_or(nbits, *value);
    }
    values
}

// Bytes, each kept where its flag is clear.
#[inline(always)]
pub fn bytes_or<const N: usize>(dec: &mut BoolDecoder, old: [u8; N]) -> [u8; N]
    requires { Room dec.old (9 * N) }
    ensures { Ran (onto old.entry (times N (maybe 128 (lit 8)))) dec.old result dec.new (9 * N) }
{
    let mut values = old;
    for value in values.iter_mut() {
        *value = dec.byte_or(128, *value);
    }
    values
}

// Literals of 8 bools.
#[inline(always)]
fn bytes<const N: usize>(dec: &mut BoolDecoder, old: [u8; N]) -> [u8; N]
    requires { Room dec.old (8 * N) }
    ensures { Ran (onto old.entry (times N (make some (lit 8)))) dec.old result dec.new (8 * N) }
{
    let mut values = old;
    for value in values.iter_mut() {
        *value = dec.read_byte(8);
    }
    values
}

// The same where `on` is set, as they were where it isn't.
#[inline(always)]
pub fn bytes_if<const N: usize>(dec: &mut BoolDecoder, on: bool, old: [u8; N]) -> [u8; N]
    requires { Room dec.old (8 * N) }
    ensures { Ran (onto old.entry (when on (times N (make some (lit 8))) [])) dec.old result dec.new (8 * N) }
{
    if on { bytes(dec, old) } else { old }
}
