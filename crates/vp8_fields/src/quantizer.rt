// The quantizer indices: RFC 6386 section 9.6.
ghost use Rattle.rfc6386.specs.Coded.{quant};
ghost use Rattle.bool_decoder.specs.Model.{Room, Passed};

use bool_decoder::{BoolDecoder, Read};
use vp8_records::QuantIndices;

// quant_indices() of section 19.2.
pub fn parse_quant_indices(dec: &mut BoolDecoder) -> Read<QuantIndices>
    requires { Room dec.old 37 }
    ensures { Passed quant dec.old result.value result.past dec.new 37 }
{
    let y_ac_qi = dec.read_byte(7);
    let y_dc_delta = dec.sint_or(4, 0);
    let y2_dc_delta = dec.sint_or(4, 0);
    let y2_ac_delta = dec.sint_or(4, 0);
    let uv_dc_delta = dec.sint_or(4, 0);
    let uv_ac_delta = dec.sint_or(4, 0);
    dec.with_past(QuantIndices {
        y_ac_qi,
        y_dc_delta,
        y2_dc_delta,
        y2_ac_delta,
        uv_dc_delta,
        uv_ac_delta,
    })
}
