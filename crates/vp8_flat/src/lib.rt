// The records as runs: the 1,126 kept numbers of a parser, the probabilities and the numbers of a header, in the order of parser.rs.
// A signed number is its two's complement byte, a flag 0 or 1. The writers put a run after what is in a `Text`.
#![tactic(auto)]

pub mod header;

ghost use Rattle.std.specs.Prelude.{◌≡◌, map};
ghost use Rattle.std.proofs.Common.{of_z};
ghost use Rattle.std.specs.Int.{w8};
ghost use Rattle.text.specs.Told.{Puts};
ghost use Rattle.vp8_records.specs.Layout.{flat_coeffs, flat_mv};
ghost use Rattle.vp8_flat.specs.Bytes.{bit_of, flat_modes, segmentation_bytes, adjustment_bytes, kept_bytes};

use text::{Buffer, Text};
use vp8_records::{CoeffProbs, MbLfAdjustments, ModeProbs, MvProbs, Parser, Segmentation};

// A flag as 0 or 1.
pub fn bit(b: bool) -> u8
    ensures { result ≡ bit_of b }
{
    u8::from(b)
}

// The two's complement byte.
pub fn byte_of(x: i8) -> u8
    ensures { result ≡ of_z w8 x }
{
    x.cast_unsigned()
}

fn put_signed<B: Buffer>(out: &mut Text<B>, v: [i8; 4])
    ensures { Puts B.place B.items out.old (map (of_z w8) v) out.new }
{
    for x in v {
        out.byte(byte_of(x));
    }
}

// The 38 motion probabilities (section 17.2).
pub fn put_motion<B: Buffer>(out: &mut Text<B>, motion: MvProbs)
    ensures { Puts B.place B.items out.old (flat_mv motion) out.new }
{
    for context in motion.v {
        out.bytes(&context.v);
    }
}

// The seven mode probabilities (section 16.2).
#[tactic(auto, using(text::proofs::Puts::writes))]
pub fn put_modes<B: Buffer>(out: &mut Text<B>, modes: ModeProbs)
    ensures { Puts B.place B.items out.old (flat_modes modes) out.new }
{
    out.bytes(&modes.intra_16x16_prob);
    out.bytes(&modes.intra_chroma_prob);
}

// Segmentation (section 9.3).
#[tactic(auto, using(text::proofs::Puts::writes))]
pub fn put_segmentation<B: Buffer>(out: &mut Text<B>, s: Segmentation)
    ensures { Puts B.place B.items out.old (segmentation_bytes s) out.new }
{
    out.byte(bit(s.segmentation_enabled));
    out.byte(bit(s.update_mb_segmentation_map));
    out.byte(bit(s.update_segment_feature_data));
    out.byte(bit(s.segment_feature_mode));
    put_signed(out, s.quantizer_update_value);
    put_signed(out, s.lf_update_value);
    out.bytes(&s.segment_prob);
}

// The filter's adjustments (section 9.4).
#[tactic(auto, using(text::proofs::Puts::writes))]
pub fn put_adjustments<B: Buffer>(out: &mut Text<B>, a: MbLfAdjustments)
    ensures { Puts B.place B.items out.old (adjustment_bytes a) out.new }
{
    out.byte(bit(a.loop_filter_adj_enable));
    out.byte(bit(a.mode_ref_lf_delta_update));
    put_signed(out, a.ref_frame_delta);
    put_signed(out, a.mb_mode_delta);
}

// All kept numbers.
pub fn put_parser<B: Buffer>(out: &mut Text<B>, parser: Parser)
    ensures { Puts B.place B.items out.old (kept_bytes parser) out.new }
{
    put_segmentation(out, parser.segmentation);
    put_adjustments(out, parser.mb_lf_adjust);
    out.bytes(&parser.coeff_prob.v);
    put_motion(out, parser.mv_prob);
    put_modes(out, parser.mode_probs);
}

// All kept numbers, as an array. `motion` and `modes` have the same shape: no closure's bound can name a text over an array of any length,
// and a trait wants as many impls.
pub fn kept(parser: Parser) -> [u8; 1126]
    ensures { result ≡ kept_bytes parser }
{
    let mut out = Text::new();
    put_parser(&mut out, parser);
    out.into_buffer()
}

// The coefficient probabilities, as an array.
pub fn coeffs(c: CoeffProbs) -> [u8; 1056]
    ensures { result ≡ flat_coeffs c }
{
    c.v
}

// The motion probabilities, as an array.
pub fn motion(m: MvProbs) -> [u8; 38]
    ensures { result ≡ flat_mv m }
{
    let mut out = Text::new();
    put_motion(&mut out, m);
    out.into_buffer()
}

// The mode probabilities, as an array.
pub fn modes(m: ModeProbs) -> [u8; 7]
    ensures { result ≡ flat_modes m }
{
    let mut out = Text::new();
    put_modes(&mut out, m);
    out.into_buffer()
}
