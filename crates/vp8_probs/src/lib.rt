// The probability tables of probs.rs: see tables.rt. A constant array that is named is made number by number, one that is lent (`&`) stands
// in the constant data.
#![tactic(auto)]

ghost use Rattle.std.specs.Prelude.{◌≡◌, ℕ, ◌<◌, get_or};
ghost use Rattle.vp8_probs.specs.Tables.{coeff_update};

pub mod tables;

// The update probabilities of section 13.4, made once for a whole header. None of them is zero.
pub fn coeff_update_probs() -> [u8; 1056]
    ensures { (result ≡ coeff_update) × ((n : ℕ) → n < 1056 → 0 < get_or result n 0) }
{
    // A copy out of the constant data.
    *&tables::COEFF_UPDATE_PROBS
}
