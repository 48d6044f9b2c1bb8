// The stored list, read piece by piece (tests/fixed/README.md). What was read is what the C library read, which no contract can name.
use lines::CutShort;
use std::io::Read;

// A stored answer that is cut short or has a wrong index.
#[derive(Clone, Copy, PartialEq, Eq, Debug)]
pub struct BadAnswer;

impl From<CutShort> for BadAnswer {
    fn from(_: CutShort) -> BadAnswer {
        BadAnswer
    }
}

// A number of 1, 2 or 4 bytes.
fn number(input: &mut impl Read, width: u8) -> Result<u32, CutShort> {
    let number = match width {
        1 => lines::take_byte(input).map(u32::from),
        2 => lines::take_le2(input)?.map(u32::from),
        _ => lines::take_le4(input)?,
    };
    number.ok_or(CutShort)
}

// Numbers of these widths.
pub fn numbers<const N: usize>(
    input: &mut impl Read,
    widths: &[u8; N],
) -> Result<[u32; N], CutShort> {
    let mut numbers = [0; N];
    for (to, width) in numbers.iter_mut().zip(widths) {
        *to = number(input, *width)?;
    }
    Ok(numbers)
}

// An index and the new number there.
fn change(input: &mut impl Read, on: &mut [u8]) -> Result<(), BadAnswer> {
    let at = lines::take_le2(input)?.ok_or(CutShort)?;
    let place = on.get_mut(usize::from(at)).ok_or(BadAnswer)?;
    *place = lines::take_byte(input).ok_or(CutShort)?;
    Ok(())
}

// A count, and that many changes.
pub fn patch(input: &mut impl Read, on: &mut [u8]) -> Result<(), BadAnswer> {
    let count = lines::take_le2(input)?.ok_or(CutShort)?;
    for _ in 0..count {
        change(input, on)?;
    }
    Ok(())
}
