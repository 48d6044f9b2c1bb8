// The intra mode probabilities of an inter frame: RFC 6386 sections 9.10 and 16.1.
ghost use Rattle.std.specs.Prelude.{◌+◌, ◌*◌};
ghost use Rattle.rfc6386.specs.Coded.{modes};
ghost use Rattle.bool_decoder.specs.Model.{Room, Passed};
ghost use Rattle.vp8_fields.specs.Rows.{onto};

use crate::arrays::bytes_if;
use bool_decoder::{BoolDecoder, Read};

// All N probabilities anew where their common flag is set.
#[inline(always)]
fn parse_mode_probs<const N: usize>(dec: &mut BoolDecoder, old: [u8; N]) -> Read<[u8; N]>
    requires { Room dec.old (1 + 8 * N) }
    ensures { Passed (onto old.entry (modes N)) dec.old result.value result.past dec.new (1 + 8 * N) }
{
    let update = dec.read_flag();
    let values = bytes_if(dec, update, old);
    dec.with_past(values)
}

// intra_16x16_prob of section 19.2: all four.
#[inline(always)]
pub fn parse_intra_16x16_prob_update(dec: &mut BoolDecoder, old: [u8; 4]) -> Read<[u8; 4]>
    requires { Room dec.old 33 }
    ensures { Passed (onto old (modes 4)) dec.old result.value result.past dec.new 33 }
{
    parse_mode_probs(dec, old)
}

// intra_chroma_prob of section 19.2: all three.
#[inline(always)]
pub fn parse_intra_chroma_prob_update(dec: &mut BoolDecoder, old: [u8; 3]) -> Read<[u8; 3]>
    requires { Room dec.old 25 }
    ensures { Passed (onto old (modes 3)) dec.old result.value result.past dec.new 25 }
{
    parse_mode_probs(dec, old)
}
