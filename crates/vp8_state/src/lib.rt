// The parser record handed over as a block of bytes (docs/RULES.md, the block): written, read, and one call over it; for Rattle, and, with
// numbers and byte slices only, for hosts, to whom `vp8_state_c` exports the last three. No public function has a premise.
#![tactic(auto)]

ghost use Rattle.std.specs.Prelude.{◌≡◌, map, ◌++◌, ◌+◌, ◌≤◌, length, Err, OnOk};
ghost use Rattle.std.proofs.Math.Seq.{paste};
ghost use Rattle.std.proofs.Common.{to_z};
ghost use Rattle.std.specs.Int.{w8};
ghost use Rattle.vp8_records.specs.Layout.{flat_coeffs, flat_mv, laid_coeffs, laid_mv};
ghost use Rattle.vp8_flat.specs.Bytes.{segmentation_bytes, adjustment_bytes, flat_modes};
ghost use Rattle.vp8_state.specs.Block.{heading, allows, faultless, refusal_of, block_verdict};
ghost use Rattle.vp8_state.specs.Laid.{part, segmentation_of, adjustments_of, modes_of, parser_of};
ghost use Rattle.vp8_state.specs.Handed.{left, answered, read_block, write_block, state_read, state_write, state_parse};

use text::Text;
use vp8_records::{CoeffProbs, MbLfAdjustments, Mode, ModeProbs, MvProbs, Parser, Segmentation};

// The bytes of a block.
pub const SIZE: usize = 1148;

// Those of a flat record: what follows the heading.
pub const RECORD: usize = 1126;

// Its heading: how many sections there are, then offset and length of each.
static HEADING: [u8; 22] = [
    5, 0, 22, 0, 15, 0, 37, 0, 10, 0, 47, 0, 32, 4, 79, 4, 38, 0, 117, 4, 7, 0,
];

// What a byte of a record may be.
#[derive(Clone, Copy, PartialEq, Eq, Debug)]
enum Kind {
    // Anything.
    Any,
    // 0 or 1.
    Flag,
    // A signed number of at most this magnitude.
    UpTo(u8),
}

impl Kind {
    fn allows(self, b: u8) -> bool
        ensures { result ≡ allows self b }
    {
        match self {
            Kind::Any => true,
            Kind::Flag => b < 2,
            Kind::UpTo(most) => b.cast_signed().unsigned_abs() <= most,
        }
    }
}

// The kinds of the bytes of segmentation and adjustments.
static KINDS: [Kind; 25] = [
    Kind::Flag,
    Kind::Flag,
    Kind::Flag,
    Kind::Flag,
    Kind::UpTo(127),
    Kind::UpTo(127),
    Kind::UpTo(127),
    Kind::UpTo(127),
    Kind::UpTo(63),
    Kind::UpTo(63),
    Kind::UpTo(63),
    Kind::UpTo(63),
    Kind::Any,
    Kind::Any,
    Kind::Any,
    Kind::Flag,
    Kind::Flag,
    Kind::UpTo(63),
    Kind::UpTo(63),
    Kind::UpTo(63),
    Kind::UpTo(63),
    Kind::UpTo(63),
    Kind::UpTo(63),
    Kind::UpTo(63),
    Kind::UpTo(63),
];

// Why bytes are not taken, as a block or as a record to be written.
#[derive(Clone, Copy, PartialEq, Eq, Debug)]
pub enum BlockRefusal {
    // 13: a block is not 1,148 bytes long, or a flat record not 1,126.
    OtherSize,
    // 14: another count of sections, another offset or length.
    OtherHeading,
    // 15: a flag above 1, a segment's quantizer of -128, a filter value outside -63..63.
    Fault,
}

impl BlockRefusal {
    // Its number.
    pub fn number(self) -> u32
        ensures { result ≡ refusal_of (Err self) }
    {
        match self {
            BlockRefusal::OtherSize => 13,
            BlockRefusal::OtherHeading => 14,
            BlockRefusal::Fault => 15,
        }
    }
}

// What reading a block answers.
#[derive(Clone, Copy, PartialEq, Eq, Debug)]
pub struct ReadAnswer {
    // Whether the block is taken.
    pub verdict: Result<(), BlockRefusal>,
    // Its record; the fresh one where it is not, so the two stand side by side.
    pub parser: Parser,
}

// The number of the refusal; 0 for none.
pub fn refusal_number(verdict: Result<(), BlockRefusal>) -> u32
    ensures { result ≡ refusal_of verdict }
{
    match verdict {
        Ok(()) => 0,
        Err(refusal) => refusal.number(),
    }
}

fn faultless(bytes: &[u8]) -> bool
    requires { 25 ≤ length bytes.now }
    ensures { result ≡ faultless bytes.now }
{
    for (kind, b) in KINDS.iter().zip(bytes) {
        if !kind.allows(*b) {
            return false;
        }
    }
    true
}

// Whether it is a block, tested in the order of the refusals.
fn block_verdict(block: &[u8]) -> Result<(), BlockRefusal>
    ensures verdict { result ≡ block_verdict block.now }
    ensures size { OnOk result (length block.now ≡ 1148) }
{
    if block.len() != SIZE {
        return Err(BlockRefusal::OtherSize);
    }
    if !block.starts_with(&HEADING) {
        return Err(BlockRefusal::OtherHeading);
    }
    if !faultless(&block[22..]) {
        return Err(BlockRefusal::Fault);
    }
    Ok(())
}

// Stores bytes from a place on: by a loop, which becomes a call of `memcpy`, since `copy_from_slice` between two of the caller's slices
// would ask a host for `memmove` too.
fn put(block: &mut [u8], at: usize, bytes: &[u8])
    requires { at + length bytes.now ≤ length block.old }
    ensures { block.new ≡ paste block.old at bytes.now (length bytes.now) }
{
    for (i, b) in bytes.iter().enumerate() {
        block[at + i] = *b;
    }
}

// The sections in which a fault may be.
fn front(s: Segmentation, a: MbLfAdjustments) -> [u8; 25]
    ensures { result ≡ segmentation_bytes s ++ adjustment_bytes a }
{
    let mut out = Text::<[u8; 25]>::new();
    vp8_flat::put_segmentation(&mut out, s);
    vp8_flat::put_adjustments(&mut out, a);
    out.into_buffer()
}

// Heading and sections, one after another.
fn put_sections(block: &mut [u8], first: [u8; 25], parser: Parser)
    requires { length block.old ≡ 1148 }
    ensures { block.new
        ≡ heading ++ first ++ flat_coeffs parser.coeff_prob ++ flat_mv parser.mv_prob ++ flat_modes parser.mode_probs }
{
    put(block, 0, &HEADING);
    put(block, 22, &first);
    put(block, 47, &parser.coeff_prob.v);
    put(block, 1103, &vp8_flat::motion(parser.mv_prob));
    put(block, 1141, &vp8_flat::modes(parser.mode_probs));
}

// Writes the record into a block of the caller's; where it is refused, the block stays as it is.
pub fn write_block(parser: Parser, block: &mut [u8]) -> Result<(), BlockRefusal>
    ensures { left result block.new ≡ write_block parser block.old }
{
    if block.len() != SIZE {
        return Err(BlockRefusal::OtherSize);
    }
    let first = front(parser.segmentation, parser.mb_lf_adjust);
    if !faultless(&first) {
        return Err(BlockRefusal::Fault);
    }
    put_sections(block, first, parser);
    Ok(())
}

// N bytes from a place on.
fn array_at<const N: usize>(bytes: &[u8], at: usize) -> [u8; N]
    requires { at + N ≤ length bytes.now }
    ensures { result ≡ part at N bytes.now }
{
    let mut v = [0; N];
    v.copy_from_slice(&bytes[at..at + N]);
    v
}

// Four bytes of two's complement, as their numbers.
fn signed_at(bytes: &[u8; RECORD], at: usize) -> [i8; 4]
    requires { at + 4 ≤ 1126 }
    ensures { result ≡ map (to_z w8) (part at 4 bytes.now) }
{
    array_at::<4>(bytes, at).map(|b| b.cast_signed())
}

fn segmentation_of(bytes: &[u8; RECORD]) -> Segmentation
    ensures { result ≡ segmentation_of bytes.now }
{
    Segmentation {
        segmentation_enabled: bytes[0] == 1,
        update_mb_segmentation_map: bytes[1] == 1,
        update_segment_feature_data: bytes[2] == 1,
        segment_feature_mode: bytes[3] == 1,
        quantizer_update_value: signed_at(bytes, 4),
        lf_update_value: signed_at(bytes, 8),
        segment_prob: array_at(bytes, 12),
    }
}

fn adjustments_of(bytes: &[u8; RECORD]) -> MbLfAdjustments
    ensures { result ≡ adjustments_of bytes.now }
{
    MbLfAdjustments {
        loop_filter_adj_enable: bytes[15] == 1,
        mode_ref_lf_delta_update: bytes[16] == 1,
        ref_frame_delta: signed_at(bytes, 17),
        mb_mode_delta: signed_at(bytes, 21),
    }
}

fn modes_of(bytes: &[u8; RECORD]) -> ModeProbs
    ensures { result ≡ modes_of bytes.now }
{
    ModeProbs {
        intra_16x16_prob: array_at(bytes, 1119),
        intra_chroma_prob: array_at(bytes, 1123),
    }
}

// The record of its bytes.
fn parser_of(bytes: &[u8; RECORD]) -> Parser
    ensures { result ≡ parser_of bytes.now }
{
    Parser {
        segmentation: segmentation_of(bytes),
        mb_lf_adjust: adjustments_of(bytes),
        coeff_prob: CoeffProbs {
            v: array_at(bytes, 25),
        },
        mv_prob: MvProbs::laid(&array_at(bytes, 1081)),
        mode_probs: modes_of(bytes),
    }
}

// The record of a block, or why there is none.
fn record_in(block: &[u8]) -> Result<Parser, BlockRefusal>
    ensures { result ≡ answered (read_block block.now) }
{
    block_verdict(block)?;
    Ok(parser_of(block.last_chunk().unwrap()))
}

// Reads the record of a block.
pub fn read_block(block: &[u8]) -> ReadAnswer
    ensures { result ≡ read_block block.now }
{
    match record_in(block) {
        Ok(parser) => ReadAnswer {
            verdict: Ok(()),
            parser,
        },
        Err(refusal) => ReadAnswer {
            verdict: Err(refusal),
            parser: Parser::new(),
        },
    }
}

// The record of a block into the caller's 1,126 bytes.
fn read_record(block: &[u8], bytes: &mut [u8]) -> Result<(), BlockRefusal>
    ensures { left (refusal_of result) bytes.new ≡ state_read block.now bytes.old }
{
    if bytes.len() != RECORD {
        return Err(BlockRefusal::OtherSize);
    }
    block_verdict(block)?;
    put(bytes, 0, &block[22..]);
    Ok(())
}

// The record of 1,126 bytes into the caller's block.
fn write_record(bytes: &[u8], block: &mut [u8]) -> Result<(), BlockRefusal>
    ensures { left (refusal_of result) block.new ≡ state_write bytes.now block.old }
{
    if block.len() != SIZE || bytes.len() != RECORD {
        return Err(BlockRefusal::OtherSize);
    }
    if !faultless(bytes) {
        return Err(BlockRefusal::Fault);
    }
    put(block, 0, &HEADING);
    put(block, 22, bytes);
    Ok(())
}

// For hosts (`vp8_state_c` exports it): the record of a block into the caller's 1,126 bytes.
pub fn vp8_state_read(block: &[u8], bytes: &mut [u8]) -> u32
    ensures { left result bytes.new ≡ state_read block.now bytes.old }
{
    refusal_number(read_record(block, bytes))
}

// For hosts: the record of 1,126 bytes into the caller's block.
pub fn vp8_state_write(bytes: &[u8], block: &mut [u8]) -> u32
    ensures { left result block.new ≡ state_write bytes.now block.old }
{
    refusal_number(write_record(bytes, block))
}

// For hosts: one call over the record of the caller's block, which then holds the record that the call leaves, refused or not. The mode 0
// is the Rust's, any other the standard's. A block that is refused stays as it is, and nothing is called.
pub fn vp8_state_parse(mode: u32, block: &mut [u8], frame: &[u8]) -> u32
    ensures { left result block.new ≡ state_parse block.old (record { mode = mode; frame = frame.now }) }
{
    match record_in(block) {
        Ok(parser) => {
            let parsed = vp8_parser::parse_in(parser, frame, Mode::from(mode));
            // A call leaves no fault, so the block takes its record.
            let _ = write_block(parsed.parser, block);
            vp8_records::number(parsed.outcome)
        }
        Err(refusal) => refusal.number(),
    }
}
