// A script from standard input: a 4-byte little-endian area length (at most 4,096), the area, a 2-byte number of reads (at most 1,024),
// and 2 bytes a read.
ghost use Rattle.std.specs.Prelude.{◌≡◌, ◌≤◌, IfOk, IfSome, length, true};
ghost use Rattle.bool_script.specs.Script.{known};

use crate::kinds_known;
use lines::CutShort;
use std::fmt;
use std::io::Read;

// The bytes of a script, in the lent buffers.
#[derive(Clone, Copy, PartialEq, Eq, Debug)]
pub struct Script<'a> {
    // The area.
    pub area: &'a [u8],
    // The reads, two bytes each.
    pub reads: &'a [u8],
}

// What is wrong with a script.
#[derive(Clone, Copy, PartialEq, Eq, Debug)]
pub enum Fault {
    // A number of bytes or of reads is above the limit, or the input ends within it.
    Input(lines::Fault),
    // A read of a kind that is not known.
    BadKind,
}

impl fmt::Display for Fault {
    fn fmt<W: fmt::Write>(&self, f: &mut fmt::Formatter<W>) -> fmt::Result {
        match self {
            Fault::Input(fault) => write!(f, "{fault}"),
            Fault::BadKind => f.write_str("bad kind"),
        }
    }
}

impl From<lines::Fault> for Fault {
    ghost use Rattle.bool_script.specs.declared.input.Fault.TheVariants.{Input};

    ghost from_gives = { λ fault result. result ≡ Input fault };

    fn from(fault: lines::Fault) -> Fault {
        Fault::Input(fault)
    }
}

impl From<CutShort> for Fault {
    ghost use Rattle.lines.specs.declared.Fault.TheVariants.{CutShort as Short};
    ghost use Rattle.bool_script.specs.declared.input.Fault.TheVariants.{Input};

    ghost from_gives = { λ _ result. result ≡ Input Short };

    fn from(cut: CutShort) -> Fault {
        Fault::Input(cut.into())
    }
}

// The number of reads, and the reads.
fn take_reads<'a>(input: &mut impl Read, buf: &'a mut [u8]) -> Result<&'a [u8], Fault>
    ensures within { IfOk result (λ reads. length reads.now ≤ length buf.old) }
    ensures kinds { IfOk result (λ reads. known reads.now ≡ true) }
{
    let count = lines::take_le2(input)?.ok_or(CutShort)?;
    let reads = lines::take_sized(input, buf, u32::from(count) * 2, 2048)?;
    if !kinds_known(reads) {
        return Err(Fault::BadKind);
    }
    Ok(reads)
}

// The next script, at the start of `area` and of `reads`; none where the input ends.
pub fn take<'a>(
    input: &mut impl Read,
    area: &'a mut [u8],
    reads: &'a mut [u8],
) -> Result<Option<Script<'a>>, Fault>
    ensures area { IfOk result (λ next. IfSome next (λ script. length script.area.now ≤ length area.old)) }
    ensures reads { IfOk result (λ next. IfSome next (λ script. length script.reads.now ≤ length reads.old)) }
    ensures kinds { IfOk result (λ next. IfSome next (λ script. known script.reads.now ≡ true)) }
{
    let Some(size) = lines::take_le4(input)? else {
        return Ok(None);
    };
    let area = lines::take_sized(input, area, size, 4096)?;
    let reads = take_reads(input, reads)?;
    Ok(Some(Script { area, reads }))
}
