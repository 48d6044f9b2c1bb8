// What bench/parse measures: a frame parsed by a fresh parser, in a mode by its number. It is exported for a host program.
#![tactic(auto)]

ghost use Rattle.std.specs.Prelude.{◌≡◌, take};
ghost use Rattle.bench_sum.specs.Sum.{folds};
ghost use Rattle.vp8_flat.specs.Bytes.{segmentation_bytes, adjustment_bytes};
ghost use Rattle.vp8_records.specs.Mode.{mode_of};
ghost use Rattle.vp8_records.specs.Start.{fresh};
ghost use Rattle.rfc6386.specs.Call.{call};
ghost use Rattle.vp8_flat.specs.Numbers.{front_numbers};
ghost use Rattle.bench_parse.specs.Numbers.{coefficient_at, motion_at, sample};
ghost use Rattle.bench_parse.specs.Numbers.{back_numbers, header_numbers, kept_numbers, sum_of};

use bench_sum::numbers;
use vp8_flat::bit;
use vp8_records::{
    CoeffProbs, Header, MbLfAdjustments, Mode, ModeProbs, MvProbs, Parsed, Parser, Segmentation,
    coeff_index,
};

fn segmentation(sum: u64, s: Segmentation) -> u64
    ensures { result ≡ folds sum (segmentation_bytes s) }
{
    let flags = [
        bit(s.segmentation_enabled),
        bit(s.update_mb_segmentation_map),
        bit(s.update_segment_feature_data),
        bit(s.segment_feature_mode),
    ];
    let quantizers = s.quantizer_update_value;
    let levels = s.lf_update_value;
    let probs = s.segment_prob;
    let signed = numbers(numbers(numbers(sum, &flags), &quantizers), &levels);
    numbers(signed, &probs)
}

fn adjustments(sum: u64, a: MbLfAdjustments) -> u64
    ensures { result ≡ folds sum (adjustment_bytes a) }
{
    let flags = [
        bit(a.loop_filter_adj_enable),
        bit(a.mode_ref_lf_delta_update),
    ];
    let frames = a.ref_frame_delta;
    let modes = a.mb_mode_delta;
    numbers(numbers(numbers(sum, &flags), &frames), &modes)
}

// One probability, at a place that only the frame tells, so that none can be left out.
fn coefficient(c: CoeffProbs, place: u32) -> u8
    ensures { result ≡ coefficient_at c place }
{
    let i = (place % 4) as u8;
    let j = (place / 4 % 8) as u8;
    let k = (place / 32 % 3) as u8;
    let l = (place / 96 % 11) as u8;
    c.v[coeff_index(i, j, k, l)]
}

fn motion(m: MvProbs, place: u32) -> u8
    ensures { result ≡ motion_at m place }
{
    let i = (place % 2) as usize;
    let j = (place / 2 % 19) as usize;
    let context = m.v[i];
    context.v[j]
}

// Of each group of probabilities one or two; a mode probability by its index.
fn probs(sum: u64, c: CoeffProbs, m: MvProbs, modes: ModeProbs, place: u32) -> u64
    ensures { result ≡ folds sum (sample c m modes place) }
{
    let luma = modes.intra_16x16_prob;
    let chroma = modes.intra_chroma_prob;
    let picked = [coefficient(c, place), motion(m, place)];
    numbers(numbers(numbers(sum, &picked), &luma), &chroma)
}

// The snapshot and the position.
fn end(sum: u64, tail: [u32; 8]) -> u64
    ensures { result ≡ folds sum (take 4 tail) }
{
    numbers(sum, &tail[..4])
}

fn front(sum: u64, h: Header) -> u64
    ensures { result ≡ folds sum (front_numbers h) }
{
    let shape = vp8_flat::header::shape(h);
    let sizes = h.partition_size;
    let indices = h.quant_indices;
    let quantizers = vp8_flat::header::quantizers(indices);
    numbers(numbers(numbers(sum, &shape), &sizes), &quantizers)
}

fn back(sum: u64, h: Header) -> u64
    ensures { result ≡ folds sum (back_numbers h) }
{
    let flags = vp8_flat::header::flags(h);
    let tail = vp8_flat::header::tail(h);
    end(numbers(sum, &flags), tail)
}

fn header(sum: u64, h: Header) -> u64
    ensures { result ≡ folds sum (header_numbers h) }
{
    let fields = back(front(sum, h), h);
    let coeff_prob = h.coeff_prob;
    let mv_prob = h.mv_prob;
    let mode_probs = h.mode_probs;
    probs(fields, coeff_prob, mv_prob, mode_probs, h.header_size)
}

fn kept(sum: u64, p: Parser, place: u32) -> u64
    ensures { result ≡ folds sum (kept_numbers p place) }
{
    let segments = p.segmentation;
    let deltas = p.mb_lf_adjust;
    let coeff_prob = p.coeff_prob;
    let mv_prob = p.mv_prob;
    let mode_probs = p.mode_probs;
    let records = adjustments(segmentation(sum, segments), deltas);
    probs(records, coeff_prob, mv_prob, mode_probs, place)
}

fn number(answer: Parsed) -> u64
    ensures { result ≡ sum_of answer }
{
    let first = u64::from(vp8_records::number(answer.outcome));
    let h = answer.header;
    kept(header(first, h), answer.parser, h.header_size)
}

// The sum over a fresh parser's answer to the frame.
#[unsafe(no_mangle)]
pub extern "C" fn bench_parse_frame(bytes: &[u8], mode: u32) -> u64
    ensures { result ≡ sum_of (call (mode_of mode) fresh bytes.now) }
{
    let fresh = Parser::new();
    let whose = Mode::from(mode);
    number(vp8_parser::parse_in(fresh, bytes, whose))
}
