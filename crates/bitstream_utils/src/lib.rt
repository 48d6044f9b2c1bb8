// Plain bytes of a slice, as bitstream_utils.rs reads them: little-endian numbers, the least significant byte first.
// Every function answers at every place: a byte past the end counts as 0. Each width is its definition's one line; one function over a
// width would need a definition of its own and a bound on it.
#![tactic(auto)]

ghost use Rattle.std.specs.Prelude.{◌≡◌, get_or};
ghost use Rattle.rfc6386.specs.Bytes.{le2, le3, le4};

// The byte at a place.
pub fn byte_at(bytes: &[u8], at: usize) -> u8
    ensures { result ≡ get_or bytes.now at 0 }
{
    bytes.get(at).copied().unwrap_or(0)
}

// Two bytes as a number: RFC 6386 section 9.1 has the sizes so.
pub fn read_le2(bytes: &[u8], at: usize) -> u32
    ensures { result ≡ le2 bytes.now at }
{
    if at < bytes.len() {
        u32::from(byte_at(bytes, at)) + u32::from(byte_at(bytes, at + 1)) * 256
    } else {
        0
    }
}

// Three bytes as a number: the frame tag of section 9.1, the partition sizes of 9.5.
pub fn read_le3(bytes: &[u8], at: usize) -> u32
    ensures { result ≡ le3 bytes.now at }
{
    if at < bytes.len() {
        read_le2(bytes, at) + u32::from(byte_at(bytes, at + 2)) * 65536
    } else {
        0
    }
}

// Four bytes as a number: the size of a recorded frame.
pub fn read_le4(bytes: &[u8], at: usize) -> u32
    ensures { result ≡ le4 bytes.now at }
{
    if at < bytes.len() {
        read_le3(bytes, at) + u32::from(byte_at(bytes, at + 3)) * 16777216
    } else {
        0
    }
}
