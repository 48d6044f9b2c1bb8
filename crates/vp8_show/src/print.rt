// The lines of the printing program: what an accepted frame is, and where each of its partitions stands; or the refusal.
ghost use Rattle.std.specs.Prelude.{◌≡◌, ◌-◌, ◌*◌, ◌≤◌, length, take};
ghost use Rattle.text.specs.Told.{Puts};
ghost use Rattle.vp8_flat.specs.Numbers.{partition_count};
ghost use Rattle.vp8_show.specs.Printed.{frame_line, partition_line, partition_lines, first_start, accepted_text};
ghost use Rattle.vp8_show.specs.Printed.{printed, printed_at, printed_look};

use crate::{Words, looked, named, refused};
use text::{Buffer, Text};
use vp8_flat::header::partitions;
use vp8_records::{Header, Look, Parsed, PeekRefusal};

const WORDS: Words<'static> = Words {
    refused: b"refused ",
    code: b" code ",
    end: b" end ",
    length: b" length ",
    seen: b"key | version | show | first | size |x| scale |x|",
};

// The first line: what the frame is.
fn frame_line<B: Buffer>(out: &mut Text<B>, h: Header)
    ensures { Puts B.place B.items out.old (frame_line h) out.new }
{
    out.fill(
        b"accepted key | version | show | chunk | first | size |x| parts | bools |\n",
        &[
            u32::from(h.key_frame),
            u32::from(h.version),
            u32::from(h.show_frame),
            u32::from(h.data_chunk_size),
            h.first_part_size,
            u32::from(h.width),
            u32::from(h.height),
            partitions(h.log2_nbr_of_dct_partitions),
            h.bools,
        ],
    );
}

// The line of a partition.
fn partition_line<B: Buffer>(out: &mut Text<B>, index: u64, start: u64, length: u64)
    ensures { Puts B.place B.items out.old (partition_line index start length) out.new }
{
    named(out, b"part ", index);
    named(out, b" start ", start);
    named(out, b" length ", length);
    out.byte(b'\n');
}

// Each partition begins where the one before it ends.
fn partition_lines<B: Buffer>(out: &mut Text<B>, sizes: &[u32], start: u64)
    requires few { length sizes.now ≤ 8 }
    requires low { start ≤ 8589934592 }
    ensures { Puts B.place B.items out.old (partition_lines 0 start sizes.now) out.new }
{
    let mut from = start;
    for (i, &size) in sizes.iter().enumerate() {
        let length = u64::from(size);
        partition_line(out, i as u64, from, length);
        from += length;
    }
}

// Where the first partition begins: behind the bytes that code the sizes, three for each partition but the last.
fn first_start(h: Header) -> u64
    ensures { (result ≡ first_start h) × (result ≤ 8589934592) }
{
    let size_bytes = 3 * (partitions(h.log2_nbr_of_dct_partitions) - 1);
    u64::from(h.data_chunk_size) + u64::from(h.first_part_size) + u64::from(size_bytes)
}

#[tactic(auto, using(text::proofs::Puts::writes), unfolding(crate::specs::Printed::accepted_text))]
fn accepted<B: Buffer>(out: &mut Text<B>, h: Header)
    ensures { Puts B.place B.items out.old (accepted_text h) out.new }
{
    frame_line(out, h);
    let count = partitions(h.log2_nbr_of_dct_partitions) as usize;
    partition_lines(out, &h.partition_size[..count], first_start(h));
}

// The lines of an answer; under 1,024 bytes.
#[tactic(auto, using(text::proofs::Puts::writes), unfolding(crate::specs::Printed::printed))]
pub fn answer<B: Buffer>(out: &mut Text<B>, parsed: Parsed)
    ensures { Puts B.place B.items out.old (printed parsed) out.new }
{
    match parsed.outcome {
        Ok(()) => accepted(out, parsed.header),
        Err(refusal) => {
            refused(out, &WORDS, refusal);
            out.byte(b'\n');
        }
    }
}

// The lines of an answer, on standard output.
pub fn tell(rt: &impl Print, parsed: Parsed) {
    let mut out = Text::<[u8; 1024]>::new();
    answer(&mut out, parsed);
    let _ = lines::show(rt, out.as_bytes());
}

// The lines of an answer, of which there are under 1,024 bytes, each with an index and a space in front; under 2,048 bytes.
pub fn numbered<B: Buffer>(out: &mut Text<B>, index: u64, parsed: Parsed)
    ensures { Puts B.place B.items out.old (printed_at index parsed) out.new }
{
    let mut lines = Text::<[u8; 1024]>::new();
    answer(&mut lines, parsed);
    out.number_lines(index, lines.as_bytes());
}

// Those, on standard output.
pub fn tell_numbered(rt: &impl Print, index: u64, parsed: Parsed) {
    let mut out = Text::<[u8; 2048]>::new();
    numbered(&mut out, index, parsed);
    let _ = lines::show(rt, out.as_bytes());
}

// The line of a look; under 256 bytes.
pub fn look<B: Buffer>(out: &mut Text<B>, peeked: Result<Look, PeekRefusal>)
    ensures { Puts B.place B.items out.old (printed_look peeked) out.new }
{
    looked(out, &WORDS, peeked);
    out.byte(b'\n');
}
