// Segmentation: RFC 6386 section 9.3.
ghost use Rattle.std.specs.Prelude.{◌≡◌, []};
ghost use Rattle.rfc6386.specs.Reads.{when, lit, make};
ghost use Rattle.rfc6386.specs.Coded.{anew, features, mapped, segments};
ghost use Rattle.rfc6386.specs.Call.{segmented};
ghost use Rattle.bool_decoder.specs.Model.{Room, Passed, Ran};
ghost use Rattle.vp8_fields.specs.Rows.{featured, features_if, onto};

use crate::arrays::{bytes_or, sints_or};
use bool_decoder::{BoolDecoder, Read};
use vp8_records::{Mode, Segmentation};

// The tree's three probabilities where `on` is set: each is read anew, and 255 where its flag is clear.
#[inline(always)]
fn segment_probs_if(dec: &mut BoolDecoder, on: bool, old: [u8; 3]) -> [u8; 3]
    requires { Room dec.old 27 }
    ensures { Ran (onto old (when on (anew 3 (lit 8) 255) [])) dec.old result dec.new 27 }
{
    if on { bytes_or(dec, [255; 3]) } else { old }
}

// The feature data, written over those of a record.
#[inline(always)]
fn feature_data(dec: &mut BoolDecoder, seg: Segmentation) -> Segmentation
    requires { Room dec.old 69 }
    ensures { Ran (make (λ f. featured f seg) features) dec.old result dec.new 69 }
{
    let mut segmentation = seg;
    segmentation.segment_feature_mode = dec.read_flag();
    segmentation.quantizer_update_value = sints_or(dec, 7, [0; 4]);
    segmentation.lf_update_value = sints_or(dec, 6, [0; 4]);
    segmentation
}

// The same where `on` is set.
#[inline(always)]
fn feature_data_if(dec: &mut BoolDecoder, on: bool, seg: Segmentation) -> Segmentation
    requires { Room dec.old 69 }
    ensures { Ran (make (λ f. featured f seg) (features_if on)) dec.old result dec.new 69 }
{
    if on { feature_data(dec, seg) } else { seg }
}

// Whether the probabilities are coded: where the map is; to the Rust only where the feature data are too.
fn probs_coded(mode: Mode, map: bool, feature: bool) -> bool
    ensures { result ≡ mapped mode map feature }
{
    match mode {
        Mode::Rust => map && feature,
        Mode::Standard => map,
    }
}

// update_segmentation() of section 19.2.
#[inline(always)]
pub fn update_segmentation(
    dec: &mut BoolDecoder,
    seg: Segmentation,
    mode: Mode,
) -> Read<Segmentation>
    requires { Room dec.old 99 }
    ensures { Passed (make (λ c. segmented c seg) (segments mode)) dec.old result.value result.past dec.new 99 }
{
    let enabled = dec.read_flag();
    let map = dec.flag_if(enabled);
    let feature = dec.flag_if(enabled);
    let mut segmentation = feature_data_if(dec, feature, seg);
    let coded = probs_coded(mode, map, feature);
    segmentation.segmentation_enabled = enabled;
    segmentation.update_mb_segmentation_map = map;
    segmentation.update_segment_feature_data = feature;
    segmentation.segment_prob = segment_probs_if(dec, coded, seg.segment_prob);
    dec.with_past(segmentation)
}
