// The loop filter's deltas: RFC 6386 section 9.4.
ghost use Rattle.std.specs.Prelude.{[]};
ghost use Rattle.rfc6386.specs.Reads.{when, sint, make, times, maybe};
ghost use Rattle.rfc6386.specs.Coded.{deltas};
ghost use Rattle.rfc6386.specs.Call.{adjusted};
ghost use Rattle.bool_decoder.specs.Model.{Room, Passed, Ran};
ghost use Rattle.vp8_fields.specs.Rows.{onto};

use crate::arrays::sints_or;
use bool_decoder::{BoolDecoder, Read};
use vp8_records::MbLfAdjustments;

// Four deltas where `on` is set, as they were where it isn't.
#[inline(always)]
fn deltas_if(dec: &mut BoolDecoder, on: bool, old: [i8; 4]) -> [i8; 4]
    requires { Room dec.old 32 }
    ensures { Ran (onto old (when on (times 4 (maybe 128 (sint 6))) [])) dec.old result dec.new 32 }
{
    if on { sints_or(dec, 6, old) } else { old }
}

// mb_lf_adjustments() of section 19.2.
pub fn parse_mb_lf_adjustments(dec: &mut BoolDecoder, adj: MbLfAdjustments) -> Read<MbLfAdjustments>
    requires { Room dec.old 66 }
    ensures { Passed (make (λ c. adjusted c adj) deltas) dec.old result.value result.past dec.new 66 }
{
    let loop_filter_adj_enable = dec.read_flag();
    let mode_ref_lf_delta_update = dec.flag_if(loop_filter_adj_enable);
    let ref_frame_delta = deltas_if(dec, mode_ref_lf_delta_update, adj.ref_frame_delta);
    let mb_mode_delta = deltas_if(dec, mode_ref_lf_delta_update, adj.mb_mode_delta);
    dec.with_past(MbLfAdjustments {
        loop_filter_adj_enable,
        mode_ref_lf_delta_update,
        ref_frame_delta,
        mb_mode_delta,
    })
}
