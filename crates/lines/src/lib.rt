// Input and output of the programs: a text to standard output, and numbers and runs of bytes from a reader.
// No public function has a premise but that a closure may be called.
#![tactic(auto)]

pub mod list;
pub mod run;

ghost use Rattle.std.specs.Prelude.{◌≡◌, ◌<◌, ◌≤◌, ◌↔◌, ◌+◌, ◌*◌, IfOk, IfErr, IsErrOf, length, get_or};

use std::io::Read;
use std::{fmt, io};

// A text to standard output.
pub fn show(rt: &impl Print, text: &[u8]) -> io::Result<()> {
    rt.write_all(text)
}

// Reads until buf is full, the input ends or a read fails; what came, at the start of buf. By hand: `read_exact` says little of what came
// before a read that fails.
fn read_full<'a>(input: &mut impl Read, buf: &'a mut [u8]) -> &'a [u8]
    ensures { length result.now ≤ length buf.old }
{
    let mut done = 0;
    while done < buf.len() {
        let Ok(n) = input.read(&mut buf[done..]) else {
            break;
        };
        if n == 0 {
            break;
        }
        done += n;
    }
    &buf[..done]
}

// The next n bytes, at the start of buf; fewer where buf is shorter or the input ends.
pub fn take<'a>(input: &mut impl Read, buf: &'a mut [u8], n: usize) -> &'a [u8]
    ensures most { length result.now ≤ n }
    ensures within { length result.now ≤ length buf.old }
{
    let wanted = n.min(buf.len());
    read_full(input, &mut buf[..wanted])
}

// The input ends before the last of the bytes that are wanted.
#[derive(Clone, Copy, PartialEq, Eq, Debug)]
pub struct CutShort;

// The next n bytes, at the start of buf; also cut short where buf is.
pub fn take_exact<'a>(
    input: &mut impl Read,
    buf: &'a mut [u8],
    n: usize,
) -> Result<&'a [u8], CutShort>
    ensures whole { IfOk result (λ bytes. length bytes.now ≡ n) }
    ensures within { IfOk result (λ bytes. length bytes.now ≤ length buf.old) }
{
    let bytes = take(input, buf, n);
    if bytes.len() < n {
        return Err(CutShort);
    }
    Ok(bytes)
}

// What is wrong with a piece of the input.
#[derive(Clone, Copy, PartialEq, Eq, Debug)]
pub enum Fault {
    // More bytes than its limit.
    TooLarge,
    // The input ends within it.
    CutShort,
}

impl fmt::Display for Fault {
    fn fmt<W: fmt::Write>(&self, f: &mut fmt::Formatter<W>) -> fmt::Result {
        f.write_str(match self {
            Fault::TooLarge => "too large",
            Fault::CutShort => "cut short",
        })
    }
}

impl From<CutShort> for Fault {
    ghost use Rattle.lines.specs.declared.Fault.{Fault};

    ghost from_gives = { λ _ fault. fault ≡ Fault.CutShort };

    fn from(_: CutShort) -> Fault {
        Fault::CutShort
    }
}

// The next bytes, of a number that was read and at most the limit, at the start of buf.
pub fn take_sized<'a>(
    input: &mut impl Read,
    buf: &'a mut [u8],
    size: u32,
    limit: u32,
) -> Result<&'a [u8], Fault>
    ensures too_large { IsErrOf result Fault.TooLarge ↔ (limit < size) }
    ensures whole { IfOk result (λ bytes. length bytes.now ≡ size) }
    ensures within { IfOk result (λ bytes. length bytes.now ≤ length buf.old) }
{
    if limit < size {
        return Err(Fault::TooLarge);
    }
    Ok(take_exact(input, buf, size as usize)?)
}

// The whole input, at the start of buf, which it may not fill.
pub fn take_all<'a>(input: &mut impl Read, buf: &'a mut [u8]) -> Result<&'a [u8], Fault>
    ensures within { IfOk result (λ bytes. length bytes.now < length buf.old) }
    ensures err { IfErr result (λ fault. fault ≡ Fault.TooLarge) }
{
    let room = buf.len();
    let bytes = read_full(input, buf);
    if bytes.len() == room {
        return Err(Fault::TooLarge);
    }
    Ok(bytes)
}

// The next byte; none where the input ends.
pub fn take_byte(input: &mut impl Read) -> Option<u8> {
    let mut byte = [0u8; 1];
    read_full(input, &mut byte).first().copied()
}

// The next N bytes, or none where the input ends at once.
pub fn take_array<const N: usize>(input: &mut impl Read) -> Result<Option<[u8; N]>, CutShort> {
    let mut bytes = [0u8; N];
    match read_full(input, &mut bytes).len() {
        0 => Ok(None),
        n if n < N => Err(CutShort),
        _ => Ok(Some(bytes)),
    }
}

// The number of two bytes, the least significant first.
fn le2(b: [u8; 2]) -> u16
    ensures { result ≡ get_or b 0 0 + get_or b 1 0 * 256 }
{
    u16::from_le_bytes(b)
}

// The same of four bytes.
fn le4(b: [u8; 4]) -> u32
    ensures { result ≡ get_or b 0 0 + get_or b 1 0 * 256 + get_or b 2 0 * 65536 + get_or b 3 0 * 16777216 }
{
    u32::from_le_bytes(b)
}

// The next two bytes as a number, the least significant first; none where the input ends at once.
pub fn take_le2(input: &mut impl Read) -> Result<Option<u16>, CutShort> {
    Ok(take_array(input)?.map(le2))
}

// The same of four bytes.
pub fn take_le4(input: &mut impl Read) -> Result<Option<u32>, CutShort> {
    Ok(take_array(input)?.map(le4))
}
