// The normalising shift: the doublings that bring a range to 128 or more.
ghost use Rattle.std.specs.Prelude.{◌*◌, ◌^◌, ◌<◌, ◌≤◌};

// The zeros above the highest set bit of the range as a byte.
pub fn norm(range: u32) -> u32
    requires { (0 < range) × (range < 256) }
    ensures { (128 ≤ range * 2 ^ result) × (range * 2 ^ result < 256) × (result ≤ 7) }
{
    let byte = range as u8;
    u8::leading_zeros(byte)
}
