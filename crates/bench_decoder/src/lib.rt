// What bench/decoder measures: the coefficient update flags of a header, read from an area's start. It is exported for a host program.
#![tactic(auto)]

ghost use Rattle.std.specs.Prelude.{◌≡◌};
ghost use Rattle.vp8_probs.specs.Tables.{coeff_update};
ghost use Rattle.bench_decoder.specs.Flags.{marked, sum_of};

use bench_sum::fold;
use bool_decoder::BoolDecoder;

// The place goes into the sum where its flag is set, so that other flags give another sum.
fn mark(sum: u64, set: bool, place: usize) -> u64
    ensures { result ≡ marked sum set place }
{
    if set { fold(sum, place as u64) } else { sum }
}

// Never inlined: over a table that it knows, the loop would make its address anew at each flag.
#[inline(never)]
fn flags(area: &[u8], table: &[u8; 1056]) -> u64
    requires { table.now ≡ coeff_update }
    ensures { result ≡ sum_of area.now }
{
    let mut dec = BoolDecoder::new(area);
    let mut sum: u64 = 0;
    for (i, p) in table.iter().enumerate() {
        sum = mark(sum, dec.read_bit(*p), i);
    }
    sum
}

// The sum over the 1,056 flags that the area begins with.
#[unsafe(no_mangle)]
pub extern "C" fn bench_decoder_flags(area: &[u8]) -> u64
    ensures { result ≡ sum_of area.now }
{
    let table = vp8_probs::coeff_update_probs();
    flags(area, &table)
}
