// The motion vector probabilities: RFC 6386 section 17.2.
ghost use Rattle.std.specs.Prelude.{◌≡◌, ◌≤◌, length};
ghost use Rattle.vp8_records.specs.Layout.{flat_mv_context, laid_mv_context};
ghost use Rattle.rfc6386.specs.Reads.{make};
ghost use Rattle.rfc6386.specs.Runs.{or};
ghost use Rattle.rfc6386.specs.Coded.{mv_of, motion};
ghost use Rattle.rfc6386.specs.Call.{mv_over};
ghost use Rattle.bool_decoder.specs.Model.{Room, Passed, Ran};
ghost use Rattle.vp8_fields.specs.Rows.{coded_mv, row_over};

use bool_decoder::{BoolDecoder, Read};
use vp8_probs::tables::MV_UPDATE_PROBS;
use vp8_records::{MvContext, MvProbs};

// A motion probability: 7 bits, of which 0 stands for 1 and all else for twice the value.
fn mv_of(update: u8) -> u8
    requires { update ≤ 127 }
    ensures { result ≡ mv_of update }
{
    if 0 < update { update * 2 } else { 1 }
}

// One where its bool, at the chance p, is set, `other` where it isn't.
#[inline(always)]
fn mv_or(dec: &mut BoolDecoder, p: u8, other: u8) -> u8
    requires { Room dec.old 8 }
    ensures { Ran (make (λ u. or u other) (coded_mv p)) dec.old result dec.new 8 }
{
    if dec.read_bit(p) {
        mv_of(dec.read_byte(7))
    } else {
        other
    }
}

// The nineteen of one component, at these chances. Beside them goes an index: of what is written through a `zip` nothing could be proved.
#[inline(always)]
fn mv_context(dec: &mut BoolDecoder, chances: &[u8], row: MvContext) -> MvContext
    requires { (length chances.now ≡ 19) × Room dec.old 152 }
    ensures { Ran (row_over flat_mv_context laid_mv_context 19 coded_mv chances.now 0 row) dec.old result dec.new 152 }
{
    let mut out = row;
    for (j, value) in out.v.iter_mut().enumerate() {
        *value = mv_or(dec, chances[j], *value);
    }
    out
}

// mv_prob_update() of section 19.2.
#[inline(always)]
pub fn parse_mv_prob_update(dec: &mut BoolDecoder, mv_probs: MvProbs) -> Read<MvProbs>
    requires { Room dec.old 304 }
    ensures { Passed (make (λ us. mv_over us mv_probs) motion) dec.old result.value result.past dec.new 304 }
{
    let mut out = mv_probs;
    let table = MV_UPDATE_PROBS;
    for (i, chances) in table.chunks_exact(19).enumerate() {
        out.v[i] = mv_context(dec, chances, out.v[i]);
    }
    dec.with_past(out)
}
