// The walk over a recording in one slice: where each frame's bytes begin, and how many they are, into two lists that the caller lends.
// No public function has a premise.
#![tactic(auto)]

ghost use Rattle.std.specs.Prelude.{◌≡◌, ◌≤◌, length};
ghost use Rattle.ivf.specs.Ivf.{headed};
ghost use Rattle.ivf.specs.Walk.{number_of, refusal_of, step_at};
ghost use Rattle.ivf.specs.Listed.{Listed};

use bitstream_utils::read_le4;

// Why a walk ends before the file does.
#[derive(Clone, Copy, PartialEq, Eq, Debug)]
pub enum WalkRefusal {
    // 10: the file does not begin with the header of a recording of VP8.
    NoHeader,
    // 11: it ends within a record.
    CutShort,
    // 12: one more whole record follows, and a list has no room for it.
    ListFull,
}

impl WalkRefusal {
    // Its number.
    pub fn number(self) -> u8
        ensures { result ≡ number_of self }
    {
        match self {
            WalkRefusal::NoHeader => 10,
            WalkRefusal::CutShort => 11,
            WalkRefusal::ListFull => 12,
        }
    }
}

// The number of the refusal; 0 where a walk ends at the end of the file.
pub fn refusal_number(ended: Result<(), WalkRefusal>) -> u8
    ensures { result ≡ refusal_of ended }
{
    match ended {
        Ok(()) => 0,
        Err(refusal) => refusal.number(),
    }
}

// What a walk answers.
#[derive(Clone, Copy, PartialEq, Eq, Debug)]
pub struct Walked {
    // How many frames are listed.
    pub count: usize,
    // Why no more are: the file ends after a record or after the header, or a refusal.
    pub ended: Result<(), WalkRefusal>,
}

fn is_headed(file: &[u8]) -> bool
    ensures { result ≡ headed file.now }
{
    file.len() >= 32 && file.starts_with(b"DKIF\0\0\x20\0VP80")
}

// What stands at a place between records: so many bytes of a frame, or the end of the file.
fn step_at(file: &[u8], at: usize) -> Result<Option<u32>, WalkRefusal>
    requires { at ≤ length file.now }
    ensures { result ≡ step_at file.now at }
{
    let left = file.len() - at;
    if left == 0 {
        return Ok(None);
    }
    if left < 12 {
        return Err(WalkRefusal::CutShort);
    }
    let size = read_le4(file, at);
    if left - 12 < size as usize {
        return Err(WalkRefusal::CutShort);
    }
    Ok(Some(size))
}

// Lists the frames of a file as `walk` does, and counts them.
fn list(
    file: &[u8],
    offsets: &mut [u64],
    lengths: &mut [u32],
    count: &mut usize,
) -> Result<(), WalkRefusal>
    requires { count.old ≡ 0 }
    ensures { Listed file.now (record { count = count.new; ended = result })
        offsets.old offsets.new lengths.old lengths.new }
{
    if !is_headed(file) {
        return Err(WalkRefusal::NoHeader);
    }
    let room = offsets.len().min(lengths.len());
    let mut at = 32;
    // Counted by hand: that the lists are full is told only where one more record follows.
    while let Some(size) = step_at(file, at)? {
        if room <= *count {
            return Err(WalkRefusal::ListFull);
        }
        let from = at + 12;
        offsets[*count] = from as u64;
        lengths[*count] = size;
        at = from + size as usize;
        *count += 1;
    }
    Ok(())
}

// Lists the frames of a file, in its order, as far as both lists go. The offset of a frame is that of its bytes; the timestamps and the
// count in the header are not looked at.
pub fn walk(file: &[u8], offsets: &mut [u64], lengths: &mut [u32]) -> Walked
    ensures { Listed file.now result
        offsets.old offsets.new lengths.old lengths.new }
{
    let mut count = 0;
    let ended = list(file, offsets, lengths, &mut count);
    Walked { count, ended }
}
