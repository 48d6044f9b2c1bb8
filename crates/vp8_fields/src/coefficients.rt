// The coefficient probabilities: RFC 6386 sections 9.9 and 13.4.
ghost use Rattle.rfc6386.specs.Reads.{make};
ghost use Rattle.rfc6386.specs.Coded.{coefficients};
ghost use Rattle.rfc6386.specs.Call.{coeffs_over};
ghost use Rattle.bool_decoder.specs.Model.{Room, Passed};

use bool_decoder::{BoolDecoder, Read};
use vp8_records::CoeffProbs;

// token_prob_update() of section 19.2. Nearly all flags are 0, so the next that is set is sought; the table is made once, and lent down.
#[inline(always)]
pub fn parse_token_prob_update(dec: &mut BoolDecoder, coeff_probs: CoeffProbs) -> Read<CoeffProbs>
    requires { Room dec.old 9504 }
    ensures { Passed (make (λ us. coeffs_over us coeff_probs) coefficients) dec.old result.value result.past dec.new 9504 }
{
    let mut out = coeff_probs;
    let table = vp8_probs::coeff_update_probs();
    // A copy that nothing points to, so that the loop keeps it in registers.
    let mut local = *dec;
    let mut i = 0;
    while let Some(n) = local.seek(&table[i..]) {
        i += n;
        out.v[i] = local.read_byte(8);
        i += 1;
    }
    *dec = local;
    Read {
        value: out,
        past: dec.past(),
    }
}
