// The records of parser.rs, with its names and order, and the starting values that belong to them.
#![tactic(auto)]

ghost use Rattle.std.specs.Prelude.{Err, ◌≡◌, ◌+◌, ◌*◌, ◌^◌, ◌<◌, ◌≤◌, length, take, drop, sum};
ghost use Rattle.vp8_records.specs.Layout.{coeff_index, laid_mv_context, laid_mv};
ghost use Rattle.vp8_records.specs.Start.{fresh_segmentation, fresh_adjustments, fresh_coeffs, fresh_mv, fresh_modes, key_modes, fresh};
ghost use Rattle.vp8_records.specs.Start.{no_quant, no_coeffs, no_mv, no_modes, blank};
ghost use Rattle.vp8_records.specs.Place.{further};
ghost use Rattle.vp8_records.specs.Outcome.{number_of, refusal_of};
ghost use Rattle.vp8_records.specs.Mode.{mode_of};
ghost use Rattle.vp8_records.specs.Length.{partitions_of, length_of};

use vp8_probs::tables;

// The quantizer indices (RFC 6386 section 9.6).
#[derive(Clone, Copy, PartialEq, Eq, Debug)]
pub struct QuantIndices {
    // The base index, of the luma AC coefficients (9.6).
    pub y_ac_qi: u8,
    // What the index of the luma DC coefficients has more (9.6).
    pub y_dc_delta: i8,
    // What that of the second-order luma DC coefficients has more (9.6).
    pub y2_dc_delta: i8,
    // What that of the second-order luma AC coefficients has more (9.6).
    pub y2_ac_delta: i8,
    // What that of the chroma DC coefficients has more (9.6).
    pub uv_dc_delta: i8,
    // What that of the chroma AC coefficients has more (9.6).
    pub uv_ac_delta: i8,
}

// The filter's adjustments by reference frame and mode (RFC 6386 section 9.4).
#[derive(Clone, Copy, PartialEq, Eq, Debug)]
pub struct MbLfAdjustments {
    // Whether levels are adjusted at all (9.4).
    pub loop_filter_adj_enable: bool,
    // Whether this frame codes new deltas (9.4).
    pub mode_ref_lf_delta_update: bool,
    // A delta for each reference frame: intra, last, golden, alternate (9.4).
    pub ref_frame_delta: [i8; 4],
    // A delta for each kind of mode: by blocks, zero, nearest or new motion, split (9.4).
    pub mb_mode_delta: [i8; 4],
}

// The adjustments by segment (RFC 6386 section 9.3).
#[derive(Clone, Copy, PartialEq, Eq, Debug)]
pub struct Segmentation {
    // Whether macroblocks belong to segments (9.3).
    pub segmentation_enabled: bool,
    // Whether this frame codes which segment each belongs to (9.3).
    pub update_mb_segmentation_map: bool,
    // Whether this frame codes new values (9.3).
    pub update_segment_feature_data: bool,
    // Whether the values stand for themselves, and are not added to the frame's (9.3).
    pub segment_feature_mode: bool,
    // Each segment's quantizer (9.3).
    pub quantizer_update_value: [i8; 4],
    // Each segment's filter level (9.3).
    pub lf_update_value: [i8; 4],
    // The probabilities by which a macroblock's segment is coded (9.3).
    pub segment_prob: [u8; 3],
}

// The probabilities by which prediction modes are coded in inter frames (RFC 6386 sections 9.10 and 16.2).
#[derive(Clone, Copy, PartialEq, Eq, Debug)]
pub struct ModeProbs {
    // Of the luma modes (16.2).
    pub intra_16x16_prob: [u8; 4],
    // Of the chroma modes (16.2).
    pub intra_chroma_prob: [u8; 3],
}

// The coefficient probabilities, as one run: `coeff_index` tells where an entry stands.
#[derive(Clone, Copy, PartialEq, Eq, Debug)]
pub struct CoeffProbs {
    // One for each block type, band, context and place of the token tree (13.3).
    pub v: [u8; 1056],
}

// The nineteen probabilities of one component of a motion vector.
#[derive(Clone, Copy, PartialEq, Eq, Debug)]
pub struct MvContext {
    // One for each place of a component's code (17.2).
    pub v: [u8; 19],
}

// The motion probabilities of both components.
#[derive(Clone, Copy, PartialEq, Eq, Debug)]
pub struct MvProbs {
    // The row's, then the column's (17.2).
    pub v: [MvContext; 2],
}

// What a frame's chunk and header say (RFC 6386 sections 9 and 19.2), and what comes of it.
#[derive(Clone, Copy, PartialEq, Eq, Debug)]
pub struct Header {
    // Whether it is a key frame (9.1).
    pub key_frame: bool,
    // The version, which picks filters (9.1).
    pub version: u8,
    // Whether it is meant to be shown (9.1).
    pub show_frame: bool,
    // The bytes of the uncompressed chunk: 10 in a key frame, else 3 (9.1).
    pub data_chunk_size: u8,
    // The bytes of the first partition (9.1).
    pub first_part_size: u32,
    // The width in pixels, of a key frame (9.1).
    pub width: u16,
    // The height in pixels, of a key frame (9.1).
    pub height: u16,
    // How to scale up across, of a key frame (9.1).
    pub horiz_scale_code: u8,
    // How to scale up downwards, of a key frame (9.1).
    pub vert_scale_code: u8,
    // The color space, of a key frame (9.2).
    pub color_space: bool,
    // Whether no pixel needs clamping, of a key frame (9.2).
    pub clamping_type: bool,
    // Whether the simple filter is used (9.4, 15).
    pub filter_type: bool,
    // The filter's level (9.4).
    pub loop_filter_level: u8,
    // The filter's sharpness (9.4).
    pub sharpness_level: u8,
    // The number of coefficient partitions, as a power of 2 (9.5).
    pub log2_nbr_of_dct_partitions: u8,
    // The bytes of each of those, 0 where there are fewer (9.5).
    pub partition_size: [u32; 8],
    // The quantizer indices (9.6).
    pub quant_indices: QuantIndices,
    // Whether the probabilities of this frame are kept for later ones (9.11, 19.2).
    pub refresh_entropy_probs: bool,
    // Whether the frame becomes the last frame (9.8).
    pub refresh_last: bool,
    // Whether it becomes the golden frame (9.7).
    pub refresh_golden_frame: bool,
    // Whether it becomes the alternate frame (9.7).
    pub refresh_alternate_frame: bool,
    // Else what the golden frame becomes (9.7).
    pub copy_buffer_to_golden: u8,
    // Else what the alternate frame becomes (9.7).
    pub copy_buffer_to_alternate: u8,
    // Whether motion from the golden frame has its sign turned (9.7).
    pub sign_bias_golden: bool,
    // Whether motion from the alternate frame has its sign turned (9.7).
    pub sign_bias_alternate: bool,
    // The coefficient probabilities of this frame (9.9, 13.4).
    pub coeff_prob: CoeffProbs,
    // The motion probabilities of this frame (9.10, 17.2).
    pub mv_prob: MvProbs,
    // Whether macroblocks without coefficients are marked (9.11).
    pub mb_no_coeff_skip: bool,
    // The probability that one is not (9.11).
    pub prob_skip_false: u8,
    // The probability that a macroblock is intra coded (9.10).
    pub prob_intra: u8,
    // The probability that it refers to the last frame (9.10).
    pub prob_last: u8,
    // The probability that it refers to the golden frame, if not to the last (9.10).
    pub prob_golden: u8,
    // The mode probabilities of this frame (9.10, 11.2, 16.2).
    pub mode_probs: ModeProbs,
    // The decoder's range after the header (7.3).
    pub bd_range: u8,
    // The whole part of its value (7.3).
    pub bd_value: u8,
    // The bits of the next byte that it has not used (7.3).
    pub bd_count: u8,
    // The bits of the area that it has used.
    pub header_size: u32,
    // Beyond the Rust: the coded bools of the header.
    pub bools: u32,
    // Beyond the Rust: the macroblocks across, the last one filled up.
    pub mb_cols: u16,
    // Beyond the Rust: the macroblocks down, the last one filled up.
    pub mb_rows: u16,
    // Beyond the Rust: the bits that the decoder has gone past the bytes that it may read, where zeros stood for them.
    pub past: u32,
}

// What is kept from frame to frame: 1,126 numbers.
#[derive(Clone, Copy, PartialEq, Eq, Debug)]
pub struct Parser {
    // The adjustments by segment (9.3): 15 numbers.
    pub segmentation: Segmentation,
    // The filter's adjustments (9.4): 10.
    pub mb_lf_adjust: MbLfAdjustments,
    // The coefficient probabilities (13.4): 1,056.
    pub coeff_prob: CoeffProbs,
    // The motion probabilities (17.2): 38.
    pub mv_prob: MvProbs,
    // The mode probabilities of inter frames (16.2): 7.
    pub mode_probs: ModeProbs,
}

// Whose reading of a frame: it is given with each call, and not kept.
#[derive(Clone, Copy, PartialEq, Eq, Debug)]
pub enum Mode {
    // The Rust's: segment probabilities only with feature data, and a decoder that reads on past the first partition.
    Rust,
    // The standard's own, with neither (RFC 6386 sections 9.3 and 9.5).
    Standard,
}

// The six refusals, with what each carries.
#[derive(Clone, Copy, PartialEq, Eq, Debug)]
pub enum Refusal {
    // 1: the chunk is cut short.
    ChunkTooShort,
    // 2, with the code found.
    InvalidStartCode(u32),
    // 3, with the first partition's end and the frame's length.
    InvalidPartitionSize(usize, usize),
    // 4: nothing follows the chunk.
    EmptyArea,
    // 5: the size bytes or the partitions run past the end.
    EndOfHeader,
    // 6, with the frame's length.
    FrameTooLong(usize),
}

// What the first ten bytes of a frame tell of it; each field is the header's of the same name (RFC 6386 section 9.1).
#[derive(Clone, Copy, PartialEq, Eq, Debug)]
pub struct Look {
    // Whether it is a key frame (9.1).
    pub key_frame: bool,
    // The version, which picks filters (9.1).
    pub version: u8,
    // Whether it is meant to be shown (9.1).
    pub show_frame: bool,
    // The bytes of the first partition (9.1).
    pub first_part_size: u32,
    // The width in pixels, of a key frame (9.1).
    pub width: u16,
    // The height in pixels, of a key frame (9.1).
    pub height: u16,
    // How to scale up across, of a key frame (9.1).
    pub horiz_scale_code: u8,
    // How to scale up downwards, of a key frame (9.1).
    pub vert_scale_code: u8,
}

// The refusals of a look at the first bytes: 1 and 2 alone.
#[derive(Clone, Copy, PartialEq, Eq, Debug)]
pub enum PeekRefusal {
    // 1: the chunk is cut short.
    TooShort,
    // 2, with the code found.
    StartCode(u32),
}

// The answer of a call. A refusal has a header too, the blank one, and leaves a parser, so both stand beside the outcome.
#[derive(Clone, Copy, PartialEq, Eq, Debug)]
pub struct Parsed {
    // How it went: a header was read, and the partitions lie within the frame; or it was refused.
    pub outcome: Result<(), Refusal>,
    // What the frame says; blank where it was refused.
    pub header: Header,
    // What is kept for the next frame.
    pub parser: Parser,
}

impl From<u32> for Mode {
    ghost from_gives = { λ number mode. mode ≡ mode_of number };

    // By its number: 0 is the Rust's, any other the standard's.
    fn from(number: u32) -> Mode {
        if number == 0 {
            Mode::Rust
        } else {
            Mode::Standard
        }
    }
}

impl Refusal {
    // Its number in the table of refusals.
    pub fn number(self) -> u32
        ensures { result ≡ number_of (Err self) }
    {
        match self {
            Refusal::ChunkTooShort => 1,
            Refusal::InvalidStartCode(_) => 2,
            Refusal::InvalidPartitionSize(_, _) => 3,
            Refusal::EmptyArea => 4,
            Refusal::EndOfHeader => 5,
            Refusal::FrameTooLong(_) => 6,
        }
    }
}

// The number of a refusal, and 0 for none.
pub fn number(outcome: Result<(), Refusal>) -> u32
    ensures { result ≡ number_of outcome }
{
    match outcome {
        Ok(()) => 0,
        Err(refusal) => refusal.number(),
    }
}

impl From<PeekRefusal> for Refusal {
    ghost from_gives = { λ early refusal. refusal ≡ refusal_of early };

    fn from(early: PeekRefusal) -> Refusal {
        match early {
            PeekRefusal::TooShort => Refusal::ChunkTooShort,
            PeekRefusal::StartCode(code) => Refusal::InvalidStartCode(code),
        }
    }
}

impl QuantIndices {
    // All zeros: part of a refusal's header.
    pub fn blank() -> Self
        ensures { result ≡ no_quant }
    {
        QuantIndices {
            y_ac_qi: 0,
            y_dc_delta: 0,
            y2_dc_delta: 0,
            y2_ac_delta: 0,
            uv_dc_delta: 0,
            uv_ac_delta: 0,
        }
    }
}

impl MbLfAdjustments {
    // What a parser starts with: off, and no deltas (9.4).
    pub fn new() -> Self
        ensures { result ≡ fresh_adjustments }
    {
        MbLfAdjustments {
            loop_filter_adj_enable: false,
            mode_ref_lf_delta_update: false,
            ref_frame_delta: [0; 4],
            mb_mode_delta: [0; 4],
        }
    }
}

impl Segmentation {
    // What a parser starts with: off, and all values 0 (9.3).
    pub fn new() -> Self
        ensures { result ≡ fresh_segmentation }
    {
        Segmentation {
            segmentation_enabled: false,
            update_mb_segmentation_map: false,
            update_segment_feature_data: false,
            segment_feature_mode: false,
            quantizer_update_value: [0; 4],
            lf_update_value: [0; 4],
            segment_prob: [0; 3],
        }
    }
}

impl ModeProbs {
    // What a parser starts with (16.2).
    pub fn new() -> Self
        ensures { result ≡ fresh_modes }
    {
        ModeProbs {
            intra_16x16_prob: tables::NK_Y_MODE_PROBS,
            intra_chroma_prob: tables::NK_UV_MODE_PROBS,
        }
    }

    // What a key frame's header has (11.2 and 11.4).
    pub fn key() -> Self
        ensures { result ≡ key_modes }
    {
        ModeProbs {
            intra_16x16_prob: tables::KF_Y_MODE_PROBS,
            intra_chroma_prob: tables::KF_UV_MODE_PROBS,
        }
    }

    // All zeros: part of a refusal's header.
    pub fn blank() -> Self
        ensures { result ≡ no_modes }
    {
        ModeProbs {
            intra_16x16_prob: [0; 4],
            intra_chroma_prob: [0; 3],
        }
    }
}

// Where the entry of a block type, a band, a context and a place of the token tree stands among the coefficient probabilities (13.3).
pub fn coeff_index(i: u8, j: u8, k: u8, l: u8) -> usize
    ensures { result ≡ coeff_index i j k l }
{
    ((8 * i as usize + j as usize) * 3 + k as usize) * 11 + l as usize
}

impl CoeffProbs {
    // What a parser starts with: the default table (13.5).
    #[tactic(auto, unfolding(crate::specs::Start::fresh_coeffs, vp8_probs::specs::Tables::coeff_default))]
    pub fn new() -> Self
        ensures { result ≡ fresh_coeffs }
    {
        // A copy out of the constant data.
        CoeffProbs {
            v: *&tables::COEFF_DEFAULT_PROBS,
        }
    }

    // All zeros: part of a refusal's header.
    #[tactic(auto, unfolding(crate::specs::Start::no_coeffs))]
    pub fn blank() -> Self
        ensures { result ≡ no_coeffs }
    {
        CoeffProbs { v: [0; 1056] }
    }
}

// The nineteen numbers from a place of a flat run on.
fn mv_context_at(flat: &[u8], at: usize) -> MvContext
    requires { at + 19 ≤ length flat.now }
    ensures { result ≡ laid_mv_context (drop at flat.now) }
{
    let mut v = [0; 19];
    v.copy_from_slice(&flat[at..at + 19]);
    MvContext { v }
}

impl MvProbs {
    // The nested records out of one flat run, the row's and the column's (17.2).
    #[tactic(auto, unfolding(crate::specs::Layout::rows))]
    pub fn laid(flat: &[u8; 38]) -> Self
        ensures { result ≡ laid_mv flat.now }
    {
        MvProbs {
            v: [mv_context_at(flat, 0), mv_context_at(flat, 19)],
        }
    }

    // What a parser starts with: the default table (17.2).
    #[inline(always)]
    #[tactic(auto, unfolding(crate::specs::Start::fresh_mv, vp8_probs::specs::Tables::mv_default))]
    pub fn new() -> Self
        ensures { result ≡ fresh_mv }
    {
        MvProbs::laid(&tables::MV_DEFAULT_PROBS)
    }

    // All zeros: part of a refusal's header.
    #[tactic(auto, unfolding(crate::specs::Start::no_mv, crate::specs::Layout::rows))]
    pub fn blank() -> Self
        ensures { result ≡ no_mv }
    {
        MvProbs {
            v: [MvContext { v: [0; 19] }; 2],
        }
    }
}

impl Parser {
    // A frame of this many bytes or more is refused.
    pub const TOO_LONG: usize = 1 << 28;

    // A parser that has seen no frame.
    #[inline(always)]
    #[tactic(auto, unfolding(crate::specs::Start::fresh))]
    pub fn new() -> Self
        ensures { result ≡ fresh }
    {
        Parser {
            segmentation: Segmentation::new(),
            mb_lf_adjust: MbLfAdjustments::new(),
            coeff_prob: CoeffProbs::new(),
            mv_prob: MvProbs::new(),
            mode_probs: ModeProbs::new(),
        }
    }

    // The kept segmentation, as a reference into the parser: where the field lies, and what it holds (9.3).
    pub fn segmentation(&self) -> &Segmentation
        ensures { (result.now ≡ self.now.segmentation) × (result.ref_ptr ≡ further 0 self.entry.ref_ptr) }
    {
        &self.segmentation
    }

    // The kept filter adjustments, likewise: the field lies 15 bytes on (9.4).
    pub fn mb_lf_adjust(&self) -> &MbLfAdjustments
        ensures { (result.now ≡ self.now.mb_lf_adjust) × (result.ref_ptr ≡ further 15 self.entry.ref_ptr) }
    {
        &self.mb_lf_adjust
    }
}

// The sum of the first of the sizes, of which there are eight.
fn sum_of(sizes: &[u32; 8], count: usize) -> usize
    ensures { (result ≡ sum (take count sizes.now)) × (result ≤ 8 * 2 ^ 32) }
{
    let mut sum: usize = 0;
    for &size in &sizes[..count.min(8)] {
        sum += size as usize;
    }
    sum
}

impl Header {
    // All zeros and false: the header of a refusal.
    #[tactic(auto, unfolding(crate::specs::Start::blank))]
    pub fn blank() -> Self
        ensures { result ≡ blank }
    {
        Header {
            key_frame: false,
            version: 0,
            show_frame: false,
            data_chunk_size: 0,
            first_part_size: 0,
            width: 0,
            height: 0,
            horiz_scale_code: 0,
            vert_scale_code: 0,
            color_space: false,
            clamping_type: false,
            filter_type: false,
            loop_filter_level: 0,
            sharpness_level: 0,
            log2_nbr_of_dct_partitions: 0,
            partition_size: [0; 8],
            quant_indices: QuantIndices::blank(),
            refresh_entropy_probs: false,
            refresh_last: false,
            refresh_golden_frame: false,
            refresh_alternate_frame: false,
            copy_buffer_to_golden: 0,
            copy_buffer_to_alternate: 0,
            sign_bias_golden: false,
            sign_bias_alternate: false,
            coeff_prob: CoeffProbs::blank(),
            mv_prob: MvProbs::blank(),
            mb_no_coeff_skip: false,
            prob_skip_false: 0,
            prob_intra: 0,
            prob_last: 0,
            prob_golden: 0,
            mode_probs: ModeProbs::blank(),
            bd_range: 0,
            bd_value: 0,
            bd_count: 0,
            header_size: 0,
            bools: 0,
            mb_cols: 0,
            mb_rows: 0,
            past: 0,
        }
    }

    // How many partitions hold coefficients (9.5).
    pub fn num_dct_partitions(&self) -> usize
        ensures { result ≡ partitions_of self.now }
    {
        1usize << (self.log2_nbr_of_dct_partitions % 64)
    }

    // The length of the whole frame: chunk, first partition, size bytes, and each partition (9.5).
    pub fn frame_len(&self) -> usize
        ensures { result ≡ length_of self.now }
    {
        let count = self.num_dct_partitions();
        let before = self.data_chunk_size as usize + self.first_part_size as usize;
        let ends = before + sum_of(&self.partition_size, count);
        ends.wrapping_add((count - 1).wrapping_mul(3))
    }
}
