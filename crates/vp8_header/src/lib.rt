// The compressed frame header of parser.rs, read in three stages over the bytes that the decoder may read, and the state that it leaves.
#![tactic(auto)]

ghost use Rattle.std.specs.Prelude.{◌≡◌, true, false};
ghost use Rattle.vp8_records.specs.Start.{key_modes};
ghost use Rattle.rfc6386.specs.Decoder.{bits, pick};
ghost use Rattle.rfc6386.specs.Frame.{pixels, scale, snapshot};
ghost use Rattle.rfc6386.specs.Reads.{when, make};
ghost use Rattle.rfc6386.specs.Coded.{refresh, inter, no_inter};
ghost use Rattle.rfc6386.specs.Call.{keeping, probs_of, blocks};
ghost use Rattle.bool_decoder.specs.Model.{state_of, Room, Ran};
ghost use Rattle.vp8_header.specs.Stages.{first, first_of, refresh_of, second, second_of, inter_of, third, third_of, probs_in};
ghost use Rattle.vp8_header.specs.Headed.{chunk_of, Heads, headed_of};

use bool_decoder::BoolDecoder;
use vp8_fields::coefficients::parse_token_prob_update;
use vp8_fields::deltas::parse_mb_lf_adjustments;
use vp8_fields::modes::{parse_intra_16x16_prob_update, parse_intra_chroma_prob_update};
use vp8_fields::motion::parse_mv_prob_update;
use vp8_fields::quantizer::parse_quant_indices;
use vp8_fields::segmentation::update_segmentation;
use vp8_records::{
    CoeffProbs, Header, MbLfAdjustments, Mode, ModeProbs, MvProbs, Parser, QuantIndices,
    Segmentation,
};

// The uncompressed chunk (RFC 6386 section 9.1).
#[derive(Clone, Copy)]
pub struct DataChunk {
    // Whether it is a key frame's (9.1).
    pub key_frame: bool,
    // The version, which picks filters (9.1).
    pub version: u8,
    // Whether the frame is meant to be shown (9.1).
    pub show_frame: bool,
    // The bytes of the first partition (9.1).
    pub first_part_size: u32,
    // The bytes of the chunk itself: 10 in a key frame, else 3 (9.1).
    pub data_chunk_size: u8,
    // The width as it is coded, 14 bits below 2 of scale; 0 in an inter frame (9.1).
    pub width_code: u16,
    // The height, likewise (9.1).
    pub height_code: u16,
}

// The header's first fields (RFC 6386 section 19.2); the stages follow the order in which they are read.
#[derive(Clone, Copy)]
pub struct First {
    // Whether colours are of a kind left open; a key frame's (9.2).
    pub color_space: bool,
    // Whether no pixel needs clamping; a key frame's (9.2).
    pub clamping_type: bool,
    // The segments, as they are kept from here on (9.3).
    pub segmentation: Segmentation,
    // Whether the loop filter is the simple one (9.4).
    pub filter_type: bool,
    // The filter's level (9.4).
    pub loop_filter_level: u8,
    // Its sharpness (9.4).
    pub sharpness_level: u8,
}

// Which buffers a frame renews, and whether its probabilities are kept (RFC 6386 sections 9.7, 9.8 and 9.11).
#[derive(Clone, Copy)]
pub struct RefreshFlags {
    // Whether the frame becomes the golden one (9.7).
    pub refresh_golden_frame: bool,
    // Whether it becomes the alternate one (9.7).
    pub refresh_alternate_frame: bool,
    // Which buffer else goes to the golden one: 0 none, 1 the last, 2 the alternate (9.7).
    pub copy_buffer_to_golden: u8,
    // Which goes to the alternate one: 0 none, 1 the last, 2 the golden (9.7).
    pub copy_buffer_to_alternate: u8,
    // Whether motion from the golden frame is turned round (9.7).
    pub sign_bias_golden: bool,
    // Whether that from the alternate frame is (9.7).
    pub sign_bias_alternate: bool,
    // Whether the probabilities are kept for later frames (9.11, 19.2).
    pub refresh_entropy_probs: bool,
    // Whether the frame becomes the last one (9.8).
    pub refresh_last: bool,
}

// The fields from the filter's deltas to the refresh flags (RFC 6386 section 19.2).
#[derive(Clone, Copy)]
pub struct Second {
    // The filter's adjustments, as they are kept from here on (9.4).
    pub mb_lf_adjust: MbLfAdjustments,
    // The number of partitions with coefficients, as a power of two (9.5).
    pub log2_nbr_of_dct_partitions: u8,
    // The quantizer indices (9.6).
    pub quant_indices: QuantIndices,
    // The refresh flags (9.7).
    pub refresh: RefreshFlags,
}

// What an inter frame codes last; a key frame leaves the numbers 0 and the records as they were (RFC 6386 section 19.2).
#[derive(Clone, Copy)]
pub struct InterFields {
    // The chance that a macroblock is not predicted from another frame (9.10).
    pub prob_intra: u8,
    // The chance that it is predicted from the last one (9.10).
    pub prob_last: u8,
    // The chance that it is from the golden one, and not the alternate (9.10).
    pub prob_golden: u8,
    // The mode probabilities, with those coded here (16.2).
    pub mode_probs: ModeProbs,
    // The motion probabilities, with those coded here (17.2).
    pub mv_prob: MvProbs,
}

// The fields from the coefficient probabilities on (RFC 6386 section 19.2).
#[derive(Clone, Copy)]
pub struct Third {
    // The coefficient probabilities, with those coded here (13.4).
    pub coeff_prob: CoeffProbs,
    // Whether macroblocks without coefficients are told (9.11).
    pub mb_no_coeff_skip: bool,
    // The chance that a macroblock has some (9.11).
    pub prob_skip_false: u8,
    // What an inter frame codes last (19.2).
    pub inter: InterFields,
}

// A header read to its end, and the state after it.
#[derive(Clone, Copy)]
pub struct Headed {
    // The header, whose partition sizes are still to come.
    pub header: Header,
    // What is kept from here on.
    pub parser: Parser,
}

// From the first flag to the filter's sharpness (RFC 6386 sections 9.2 to 9.4).
fn parse_first(dec: &mut BoolDecoder, key: bool, seg: Segmentation, mode: Mode) -> First
    requires { Room dec.old 111 }
    ensures { Ran (make (first_of seg) (first mode key)) dec.old result dec.new 111 }
{
    let color_space = dec.flag_if(key);
    let clamping_type = dec.flag_if(key);
    let segmentation = update_segmentation(dec, seg, mode).value;
    let filter_type = dec.read_flag();
    let loop_filter_level = dec.read_byte(6);
    let sharpness_level = dec.read_byte(3);
    First {
        color_space,
        clamping_type,
        segmentation,
        filter_type,
        loop_filter_level,
        sharpness_level,
    }
}

// A key frame refreshes all three buffers.
fn refresh_key(dec: &mut BoolDecoder) -> RefreshFlags
    requires { Room dec.old 1 }
    ensures { Ran (make refresh_of (refresh true)) dec.old result dec.new 1 }
{
    RefreshFlags {
        refresh_golden_frame: true,
        refresh_alternate_frame: true,
        copy_buffer_to_golden: 0,
        copy_buffer_to_alternate: 0,
        sign_bias_golden: false,
        sign_bias_alternate: false,
        refresh_entropy_probs: dec.read_flag(),
        refresh_last: true,
    }
}

// An inter frame codes which buffers it refreshes (RFC 6386 sections 9.7 and 9.8).
fn refresh_inter(dec: &mut BoolDecoder) -> RefreshFlags
    requires { Room dec.old 10 }
    ensures { Ran (make refresh_of (refresh false)) dec.old result dec.new 10 }
{
    let refresh_golden_frame = dec.read_flag();
    let refresh_alternate_frame = dec.read_flag();
    let copy_buffer_to_golden = dec.byte_if(!refresh_golden_frame, 2);
    let copy_buffer_to_alternate = dec.byte_if(!refresh_alternate_frame, 2);
    let sign_bias_golden = dec.read_flag();
    let sign_bias_alternate = dec.read_flag();
    let refresh_entropy_probs = dec.read_flag();
    let refresh_last = dec.read_flag();
    RefreshFlags {
        refresh_golden_frame,
        refresh_alternate_frame,
        copy_buffer_to_golden,
        copy_buffer_to_alternate,
        sign_bias_golden,
        sign_bias_alternate,
        refresh_entropy_probs,
        refresh_last,
    }
}

// The refresh flags of either kind of frame.
fn parse_refresh(dec: &mut BoolDecoder, key: bool) -> RefreshFlags
    requires { Room dec.old 10 }
    ensures { Ran (make refresh_of (refresh key)) dec.old result dec.new 10 }
{
    if key {
        refresh_key(dec)
    } else {
        refresh_inter(dec)
    }
}

// From the filter's deltas to the refresh flags (RFC 6386 sections 9.4 to 9.8).
fn parse_second(dec: &mut BoolDecoder, key: bool, adj: MbLfAdjustments) -> Second
    requires { Room dec.old 115 }
    ensures { Ran (make (second_of adj) (second key)) dec.old result dec.new 115 }
{
    let mb_lf_adjust = parse_mb_lf_adjustments(dec, adj).value;
    let log2_nbr_of_dct_partitions = dec.read_byte(2);
    let quant_indices = parse_quant_indices(dec).value;
    let refresh = parse_refresh(dec, key);
    Second {
        mb_lf_adjust,
        log2_nbr_of_dct_partitions,
        quant_indices,
        refresh,
    }
}

// What an inter frame codes last (RFC 6386 sections 9.10, 16.2 and 17.2).
fn parse_inter(dec: &mut BoolDecoder, modes: ModeProbs, mv: MvProbs) -> InterFields
    requires { Room dec.old 386 }
    ensures { Ran (make (inter_of modes mv) inter) dec.old result dec.new 386 }
{
    let prob_intra = dec.read_byte(8);
    let prob_last = dec.read_byte(8);
    let prob_golden = dec.read_byte(8);
    let intra_16x16_prob = parse_intra_16x16_prob_update(dec, modes.intra_16x16_prob).value;
    let intra_chroma_prob = parse_intra_chroma_prob_update(dec, modes.intra_chroma_prob).value;
    let mv_prob = parse_mv_prob_update(dec, mv).value;
    InterFields {
        prob_intra,
        prob_last,
        prob_golden,
        mode_probs: ModeProbs {
            intra_16x16_prob,
            intra_chroma_prob,
        },
        mv_prob,
    }
}

// The same where the frame is one; the records stay where it is not.
fn parse_inter_if(dec: &mut BoolDecoder, on: bool, modes: ModeProbs, mv: MvProbs) -> InterFields
    requires { Room dec.old 386 }
    ensures { Ran (make (inter_of modes mv) (when on inter no_inter)) dec.old result dec.new 386 }
{
    if on {
        parse_inter(dec, modes, mv)
    } else {
        InterFields {
            prob_intra: 0,
            prob_last: 0,
            prob_golden: 0,
            mode_probs: modes,
            mv_prob: mv,
        }
    }
}

// From the coefficient probabilities on (RFC 6386 sections 13.4 and 9.11).
#[inline(always)]
fn parse_third(dec: &mut BoolDecoder, key: bool, parser: Parser) -> Third
    requires { Room dec.old 9899 }
    ensures { Ran (make (third_of (probs_of parser)) (third key)) dec.old result dec.new 9899 }
{
    let tokens = parse_token_prob_update(dec, parser.coeff_prob);
    let mb_no_coeff_skip = dec.read_flag();
    let prob_skip_false = dec.byte_if(mb_no_coeff_skip, 8);
    let inter = parse_inter_if(dec, !key, parser.mode_probs, parser.mv_prob);
    Third {
        coeff_prob: tokens.value,
        mb_no_coeff_skip,
        prob_skip_false,
        inter,
    }
}

// A key frame's header has mode probabilities of its own.
fn mode_probs_init_defaults(key: bool, kept: ModeProbs) -> ModeProbs
    ensures { result ≡ pick key key_modes kept }
{
    if key { ModeProbs::key() } else { kept }
}

// What is kept: the two records as they were read, and the probabilities only where refresh_entropy_probs is set.
fn kept(
    old: Parser,
    segmentation: Segmentation,
    mb_lf_adjust: MbLfAdjustments,
    refresh: bool,
    third: Third,
) -> Parser
    ensures { result ≡ keeping segmentation mb_lf_adjust (pick refresh (probs_in third) (probs_of old)) }
{
    let inter = third.inter;
    let mut coeff_prob = old.coeff_prob;
    let mut mv_prob = old.mv_prob;
    let mut mode_probs = old.mode_probs;
    if refresh {
        coeff_prob = third.coeff_prob;
        mv_prob = inter.mv_prob;
        mode_probs = inter.mode_probs;
    }
    Parser {
        segmentation,
        mb_lf_adjust,
        coeff_prob,
        mv_prob,
        mode_probs,
    }
}

// The pixels of a width or a height as it is coded.
pub fn pixels(code: u16) -> u16
    ensures { result ≡ pixels code }
{
    code % 16384
}

// Its scale code.
pub fn scale(code: u16) -> u8
    ensures { result ≡ scale code }
{
    (code / 16384) as u8
}

// Macroblock columns of a width, or rows of a height; by `div_ceil`, since 15 more may not fit a u16.
fn blocks(n: u16) -> u16
    ensures { result ≡ blocks n }
{
    n.div_ceil(16)
}

// The header of what the three stages read; its partition sizes are still to come.
fn header_of(
    chunk: DataChunk,
    first: First,
    second: Second,
    third: Third,
    dec: &BoolDecoder,
) -> Header
    ensures { Heads result chunk first second third (snapshot (bits dec.now.area.now) (state_of dec.now)) }
{
    let width = pixels(chunk.width_code);
    let height = pixels(chunk.height_code);
    let horiz_scale_code = scale(chunk.width_code);
    let vert_scale_code = scale(chunk.height_code);
    let inter = third.inter;
    let refresh = second.refresh;
    let mode_probs = mode_probs_init_defaults(chunk.key_frame, inter.mode_probs);
    let header_size = dec.pos();
    let state = dec.snapshot();
    let bools = dec.bools();
    let mb_cols = blocks(width);
    let mb_rows = blocks(height);
    let past = dec.past();
    Header {
        key_frame: chunk.key_frame,
        version: chunk.version,
        show_frame: chunk.show_frame,
        data_chunk_size: chunk.data_chunk_size,
        first_part_size: chunk.first_part_size,
        width,
        height,
        horiz_scale_code,
        vert_scale_code,
        color_space: first.color_space,
        clamping_type: first.clamping_type,
        filter_type: first.filter_type,
        loop_filter_level: first.loop_filter_level,
        sharpness_level: first.sharpness_level,
        log2_nbr_of_dct_partitions: second.log2_nbr_of_dct_partitions,
        partition_size: [0; 8],
        quant_indices: second.quant_indices,
        refresh_entropy_probs: refresh.refresh_entropy_probs,
        refresh_last: refresh.refresh_last,
        refresh_golden_frame: refresh.refresh_golden_frame,
        refresh_alternate_frame: refresh.refresh_alternate_frame,
        copy_buffer_to_golden: refresh.copy_buffer_to_golden,
        copy_buffer_to_alternate: refresh.copy_buffer_to_alternate,
        sign_bias_golden: refresh.sign_bias_golden,
        sign_bias_alternate: refresh.sign_bias_alternate,
        coeff_prob: third.coeff_prob,
        mv_prob: inter.mv_prob,
        mb_no_coeff_skip: third.mb_no_coeff_skip,
        prob_skip_false: third.prob_skip_false,
        prob_intra: inter.prob_intra,
        prob_last: inter.prob_last,
        prob_golden: inter.prob_golden,
        mode_probs,
        bd_range: state.range,
        bd_value: state.value,
        bd_count: state.count,
        header_size,
        bools,
        mb_cols,
        mb_rows,
        past,
    }
}

// The whole header over the bytes that the decoder may read (RFC 6386 section 19.2), and the state that it leaves.
#[inline(always)]
pub fn parse_frame_header(area: &[u8], parser: Parser, chunk: DataChunk, mode: Mode) -> Headed
    ensures { result ≡ headed_of mode (chunk_of chunk) area.now parser }
{
    let key = chunk.key_frame;
    let mut dec = BoolDecoder::new(area);
    let first = parse_first(&mut dec, key, parser.segmentation, mode);
    let second = parse_second(&mut dec, key, parser.mb_lf_adjust);
    let third = parse_third(&mut dec, key, parser);
    let header = header_of(chunk, first, second, third, &dec);
    let parser = kept(
        parser,
        first.segmentation,
        second.mb_lf_adjust,
        header.refresh_entropy_probs,
        third,
    );
    Headed { header, parser }
}
