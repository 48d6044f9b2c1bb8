// The numbers of a header, of a look and of an outcome, in the order in which a line of the dump has them.
ghost use Rattle.std.specs.Prelude.{◌≡◌, ◌≤◌};
ghost use Rattle.vp8_flat.specs.Numbers.{partition_count, shape_of, quant_of, flags_of, tail_of, look_of, carried_of};

use crate::byte_of;
use vp8_records::{Header, Look, QuantIndices, Refusal};

// What a refusal carries: 2 its code, 3 the end and the length, 6 the length; else zeros. The number is 0 where the frame is accepted.
#[derive(Clone, Copy, PartialEq, Eq, Debug)]
pub struct Carried {
    // The number of the refusal.
    pub number: u32,
    // The first that it carries.
    pub a: u64,
    // The second.
    pub b: u64,
}

// The number and what is carried.
pub fn refusal(outcome: Result<(), Refusal>) -> Carried
    ensures { result ≡ carried_of outcome }
{
    let number = vp8_records::number(outcome);
    let (a, b) = match outcome {
        Err(Refusal::InvalidStartCode(code)) => (u64::from(code), 0),
        Err(Refusal::InvalidPartitionSize(end, length)) => (end as u64, length as u64),
        Err(Refusal::FrameTooLong(length)) => (length as u64, 0),
        _ => (0, 0),
    };
    Carried { number, a, b }
}

// How many partitions hold coefficients (RFC 6386 section 9.5).
pub fn partitions(log2: u8) -> u32
    ensures { (result ≡ partition_count log2) × (1 ≤ result) × (result ≤ 8) }
{
    match log2 {
        0 => 1,
        1 => 2,
        2 => 4,
        _ => 8,
    }
}

// The tag, the sizes, the filter and the partitions.
pub fn shape(h: Header) -> [u32; 16]
    ensures { result ≡ shape_of h }
{
    [
        u32::from(h.key_frame),
        u32::from(h.version),
        u32::from(h.show_frame),
        u32::from(h.data_chunk_size),
        h.first_part_size,
        u32::from(h.width),
        u32::from(h.height),
        u32::from(h.horiz_scale_code),
        u32::from(h.vert_scale_code),
        u32::from(h.color_space),
        u32::from(h.clamping_type),
        u32::from(h.filter_type),
        u32::from(h.loop_filter_level),
        u32::from(h.sharpness_level),
        partitions(h.log2_nbr_of_dct_partitions),
        u32::from(h.log2_nbr_of_dct_partitions),
    ]
}

// The quantizer index and the five deltas, each as its byte (RFC 6386 section 9.6).
pub fn quantizers(q: QuantIndices) -> [u32; 6]
    ensures { result ≡ quant_of q }
{
    [
        u32::from(q.y_ac_qi),
        u32::from(byte_of(q.y_dc_delta)),
        u32::from(byte_of(q.y2_dc_delta)),
        u32::from(byte_of(q.y2_ac_delta)),
        u32::from(byte_of(q.uv_dc_delta)),
        u32::from(byte_of(q.uv_ac_delta)),
    ]
}

// What the frame refreshes and copies, and its single probabilities.
pub fn flags(h: Header) -> [u32; 13]
    ensures { result ≡ flags_of h }
{
    [
        u32::from(h.refresh_entropy_probs),
        u32::from(h.refresh_last),
        u32::from(h.refresh_golden_frame),
        u32::from(h.refresh_alternate_frame),
        u32::from(h.copy_buffer_to_golden),
        u32::from(h.copy_buffer_to_alternate),
        u32::from(h.sign_bias_golden),
        u32::from(h.sign_bias_alternate),
        u32::from(h.mb_no_coeff_skip),
        u32::from(h.prob_skip_false),
        u32::from(h.prob_intra),
        u32::from(h.prob_last),
        u32::from(h.prob_golden),
    ]
}

// The snapshot of the decoder, and what follows from the whole header.
pub fn tail(h: Header) -> [u32; 8]
    ensures { result ≡ tail_of h }
{
    [
        u32::from(h.bd_range),
        u32::from(h.bd_value),
        u32::from(h.bd_count),
        h.header_size,
        h.bools,
        u32::from(h.mb_cols),
        u32::from(h.mb_rows),
        h.past,
    ]
}

// What a look tells.
pub fn look(l: Look) -> [u32; 8]
    ensures { result ≡ look_of l }
{
    [
        u32::from(l.key_frame),
        u32::from(l.version),
        u32::from(l.show_frame),
        l.first_part_size,
        u32::from(l.width),
        u32::from(l.height),
        u32::from(l.horiz_scale_code),
        u32::from(l.vert_scale_code),
    ]
}
