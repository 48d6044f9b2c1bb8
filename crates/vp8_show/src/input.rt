// A record from standard input: a 4-byte little-endian length (at most 65,536) and that many bytes of a frame. With nothing after it, the
// length FFFFFFFF asks for a fresh parser, FFFFFFFE and FFFFFFFD that frames be read in the standard's mode and in the Rust's from here
// on, and FFFFFFFC that the next frame be only looked at.
ghost use Rattle.std.specs.Prelude.{◌≡◌, ◌<◌, ◌≤◌, ◌↔◌, IfOk, IfSome, IsErrOf, length};
ghost use Rattle.vp8_show.specs.Input.{IsFrameIn};

use lines::Fault;
use std::io::Read;
use vp8_records::Mode;

// The lengths that are none.
const FRESH: u32 = 0xffffffff;

const STANDARD: u32 = 0xfffffffe;

const RUST: u32 = 0xfffffffd;

const LOOK: u32 = 0xfffffffc;

// What a record asks for.
#[derive(Clone, Copy)]
pub enum Record<'a> {
    // To parse a frame, or to look at it.
    Frame(&'a [u8]),
    // A fresh parser.
    Fresh,
    // Frames read in this mode from here on.
    In(Mode),
    // That the next frame be only looked at.
    Look,
}

// The frame of a given size, at the start of the buffer.
pub fn take_frame<'a>(
    input: &mut impl Read,
    buf: &'a mut [u8],
    size: u32,
) -> Result<&'a [u8], Fault>
    ensures too_large { IsErrOf result Fault.TooLarge ↔ (65536 < size) }
    ensures whole { IfOk result (λ frame. length frame.now ≡ size) }
    ensures within { IfOk result (λ frame. length frame.now ≤ length buf.old) }
{
    lines::take_sized(input, buf, size, 65536)
}

// The next record, its frame at the start of the buffer; none where the input ends.
pub fn take<'a>(input: &mut impl Read, buf: &'a mut [u8]) -> Result<Option<Record<'a>>, Fault>
    ensures { IfOk result (λ next. IfSome next (IsFrameIn buf.old)) }
{
    let Some(size) = lines::take_le4(input)? else {
        return Ok(None);
    };
    Ok(Some(match size {
        FRESH => Record::Fresh,
        STANDARD => Record::In(Mode::Standard),
        RUST => Record::In(Mode::Rust),
        LOOK => Record::Look,
        _ => Record::Frame(take_frame(input, buf, size)?),
    }))
}
