// The frame of parser.rs: chunk, header, partition sizes, state and outcome, as one call by value; and a look at the first ten bytes.
#![tactic(auto)]

ghost use Rattle.std.specs.Prelude.{◌≡◌, Err, ◌^◌, ◌<◌, ◌≤◌, length, take};
ghost use Rattle.vp8_records.specs.declared.Mode.TheVariants.{Rust};
ghost use Rattle.vp8_records.specs.Start.{blank};
ghost use Rattle.rfc6386.specs.Frame.{tagged, key_chunk, chunk, coded_sizes, sum, sizes, held, body, follows};
ghost use Rattle.rfc6386.specs.Call.{cleared, base, answer, finish, call};
ghost use Rattle.rfc6386.specs.Peek.{look, peek, peek_of};
ghost use Rattle.vp8_header.specs.Headed.{chunk_of};
ghost use Rattle.vp8_parser.specs.Answers.{opened_of, opened_early, padded, sizes_of, sized_of};

use bitstream_utils::{read_le2, read_le3};
use vp8_header::DataChunk;
use vp8_records::{Header, Look, Mode, Parsed, Parser, PeekRefusal, Refusal};

// The fields of the tag.
fn tagged(tag: u32, key: bool, size: u8, width: u16, height: u16) -> DataChunk
    ensures { chunk_of result ≡ tagged tag key size width height }
{
    DataChunk {
        key_frame: key,
        version: (tag / 2 % 8) as u8,
        show_frame: tag / 16 % 2 == 1,
        first_part_size: tag / 32,
        data_chunk_size: size,
        width_code: width,
        height_code: height,
    }
}

// A key frame's start code and sizes.
#[tactic(auto, using(crate::proofs::Opens::key_short, crate::proofs::Opens::key_other, crate::proofs::Opens::key_cut, crate::proofs::Opens::key_whole))]
fn key_chunk(bytes: &[u8]) -> Result<DataChunk, PeekRefusal>
    ensures { opened_early result ≡ key_chunk bytes.now }
{
    if bytes.len() < 6 {
        return Err(PeekRefusal::TooShort);
    }
    let code = read_le3(bytes, 3);
    if code != 0x2a019d {
        return Err(PeekRefusal::StartCode(code));
    }
    if bytes.len() < 10 {
        return Err(PeekRefusal::TooShort);
    }
    let tag = read_le3(bytes, 0);
    let width = read_le2(bytes, 6) as u16;
    let height = read_le2(bytes, 8) as u16;
    Ok(tagged(tag, true, 10, width, height))
}

// The chunk of bytes that are not too many, or refusal 1 or 2.
#[tactic(auto, using(crate::proofs::Opens::chunk_short, crate::proofs::Opens::chunk_key, crate::proofs::Opens::chunk_inter))]
fn short_chunk(bytes: &[u8]) -> Result<DataChunk, PeekRefusal>
    requires { length bytes.now < 2 ^ 28 }
    ensures { opened_early result ≡ chunk bytes.now }
{
    if bytes.len() < 3 {
        return Err(PeekRefusal::TooShort);
    }
    let tag = read_le3(bytes, 0);
    if tag % 2 == 0 {
        return key_chunk(bytes);
    }
    Ok(tagged(tag, false, 3, 0, 0))
}

// The chunk, or refusal 6, 1 or 2 (RFC 6386 section 9.1).
#[tactic(auto, using(rfc6386::proofs::Peek::over_long))]
pub fn parse_uncompressed_data_chunk(bytes: &[u8]) -> Result<DataChunk, Refusal>
    ensures { opened_of result ≡ chunk bytes.now }
{
    if Parser::TOO_LONG <= bytes.len() {
        return Err(Refusal::FrameTooLong(bytes.len()));
    }
    Ok(short_chunk(bytes)?)
}

// The first ten bytes, or all where there are no more.
fn first_ten(bytes: &[u8]) -> &[u8]
    ensures { result.now ≡ take 10 bytes.now }
{
    &bytes[..bytes.len().min(10)]
}

// What a chunk tells.
fn look(chunk: DataChunk) -> Look
    ensures { result ≡ look (chunk_of chunk) }
{
    Look {
        key_frame: chunk.key_frame,
        version: chunk.version,
        show_frame: chunk.show_frame,
        first_part_size: chunk.first_part_size,
        width: vp8_header::pixels(chunk.width_code),
        height: vp8_header::pixels(chunk.height_code),
        horiz_scale_code: vp8_header::scale(chunk.width_code),
        vert_scale_code: vp8_header::scale(chunk.height_code),
    }
}

// A look at the first ten bytes of a frame, or at all where there are fewer (RFC 6386 section 9.1): what they tell, or refusal 1 or 2.
pub fn peek(first: &[u8]) -> Result<Look, PeekRefusal>
    ensures { peek_of result ≡ peek first.now }
{
    let chunk = short_chunk(first_ten(first))?;
    Ok(look(chunk))
}

// The sizes that are coded, 3 bytes each; unused entries are 0. And their sum.
fn coded_sizes(area: &[u8], start: u32, count: usize) -> ([u32; 8], usize)
    requires { count ≤ 7 }
    ensures { result ≡ (padded (coded_sizes count area.now start), sum (coded_sizes count area.now start)) }
{
    let mut sizes = [0; 8];
    let mut total: usize = 0;
    for i in 0..count {
        let size = read_le3(area, start as usize + 3 * i);
        sizes[i] = size;
        total += size as usize;
    }
    (sizes, total)
}

// The sizes that are coded, with the last partition, which is the rest; none where they do not end within the area.
fn compute_partition_sizes(area: &[u8], first: u32, partitions: usize) -> Option<[u32; 8]>
    requires few { (1 ≤ partitions) × (partitions ≤ 8) }
    requires short { length area.now < 2 ^ 28 }
    ensures { result ≡ sizes_of (sizes partitions area.now first) }
{
    let count = partitions - 1;
    let rest = area.len().checked_sub(first as usize + 3 * count)?;
    let (mut sizes, total) = coded_sizes(area, first, count);
    sizes[count] = rest.checked_sub(total)? as u32;
    Some(sizes)
}

// A refusal has the blank header.
fn refused(refusal: Refusal, parser: Parser) -> Parsed
    ensures { result ≡ answer (Err refusal) blank parser }
{
    Parsed {
        outcome: Err(refusal),
        header: Header::blank(),
        parser,
    }
}

// The state that a frame starts from: a key frame resets.
#[inline(always)]
fn base_of(chunk: DataChunk, parser: Parser) -> Parser
    ensures { result ≡ base (chunk_of chunk) parser }
{
    if chunk.key_frame {
        Parser::new()
    } else {
        parser
    }
}

// What the failing first read of a header over an empty area leaves.
#[tactic(auto, unfolding(rfc6386::specs::Call::cleared))]
fn clear_updates(mut parser: Parser) -> Parser
    ensures { result ≡ cleared parser }
{
    parser.segmentation.update_mb_segmentation_map = false;
    parser.segmentation.update_segment_feature_data = false;
    parser
}

// What the decoder may read of the area: the first partition; to the Rust all of it.
fn held(mode: Mode, first: u32, area: &[u8]) -> &[u8]
    requires { first ≤ length area.now }
    ensures { result.now ≡ held mode first area.now }
{
    match mode {
        Mode::Rust => area,
        Mode::Standard => &area[..first as usize],
    }
}

// A frame of whose area some bytes are held, over the state that it starts from. Inlined with all on its way, since an answer that a call
// is to fill is cleared before, and copied after.
#[inline(always)]
fn parse_area(parser: Parser, area: &[u8], held: &[u8], chunk: DataChunk, mode: Mode) -> Parsed
    requires { length area.now < 2 ^ 28 }
    ensures { result ≡ sized_of mode (chunk_of chunk) area.now held.now parser }
{
    let headed = vp8_header::parse_frame_header(held, parser, chunk, mode);
    let mut header = headed.header;
    let after = headed.parser;
    let partitions = header.num_dct_partitions();
    let Some(sizes) = compute_partition_sizes(area, chunk.first_part_size, partitions) else {
        return refused(Refusal::EndOfHeader, after);
    };
    header.partition_size = sizes;
    Parsed {
        outcome: Ok(()),
        header,
        parser: after,
    }
}

// What follows the chunk.
#[inline(always)]
fn parse_body(parser: Parser, bytes: &[u8], chunk: DataChunk, mode: Mode) -> Parsed
    requires { length bytes.now < 2 ^ 28 }
    ensures { result ≡ finish (follows (chunk_of chunk) (body mode (chunk_of chunk) bytes.now)) parser }
{
    let at = chunk.data_chunk_size as usize;
    let end = at + chunk.first_part_size as usize;
    let from = base_of(chunk, parser);
    if bytes.len() < end {
        return refused(Refusal::InvalidPartitionSize(end, bytes.len()), from);
    }
    let area = &bytes[at..];
    let held = held(mode, chunk.first_part_size, area);
    if held.is_empty() {
        return refused(Refusal::EmptyArea, clear_updates(from));
    }
    parse_area(from, area, held, chunk, mode)
}

// One call: every slice gets an answer, which is the definition's in that mode (RFC 6386 section 9).
#[inline(always)]
pub fn parse_in(parser: Parser, bytes: &[u8], mode: Mode) -> Parsed
    ensures { result ≡ call mode parser bytes.now }
{
    match parse_uncompressed_data_chunk(bytes) {
        Ok(chunk) => parse_body(parser, bytes, chunk, mode),
        Err(refusal) => refused(refusal, parser),
    }
}

// One call, read as the Rust reads.
pub fn parse(parser: Parser, bytes: &[u8]) -> Parsed
    ensures { result ≡ call Rust parser bytes.now }
{
    parse_in(parser, bytes, Mode::Rust)
}
