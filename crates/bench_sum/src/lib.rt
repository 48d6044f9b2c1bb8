// The sum that a benchmark makes of what was read, so that its two sides can be held against each other.
#![tactic(auto)]

ghost use Rattle.std.specs.Prelude.{◌≡◌, ℕ, List, map, refl};
ghost use Rattle.std.proofs.Common.{map-id, of_z};
ghost use Rattle.std.specs.Int.{w8};
ghost use Rattle.bench_sum.specs.Sum.{folded, folds};

// One number more: other numbers, or the same in another order, give another sum.
pub fn fold(sum: u64, number: u64) -> u64
    ensures { result ≡ folded sum number }
{
    sum.rotate_left(5) ^ number
}

// What a list may hold: a number of 64 bits or fewer. `values` is a list's, which for a number without a sign is the list itself.
pub trait Number: Copy {
    ghost value: { Self → ℕ };

    ghost values: { List Self → List ℕ };

    // Its value.
    fn number(self) -> u64
        ensures { result ≡ value self };

    ghost each: { (ns : List Self) → map value ns ≡ values ns };
}

impl Number for u8 {
    ghost value = { λ n. n };

    ghost values = { λ ns. ns };

    ghost each = { map-id };

    fn number(self) -> u64 {
        u64::from(self)
    }
}

impl Number for u32 {
    ghost value = { λ n. n };

    ghost values = { λ ns. ns };

    ghost each = { map-id };

    fn number(self) -> u64 {
        u64::from(self)
    }
}

// A signed number as its two's complement byte.
impl Number for i8 {
    ghost value = { of_z w8 };

    ghost values = { map (of_z w8) };

    ghost each = { λ ns. refl };

    fn number(self) -> u64 {
        u64::from(self.cast_unsigned())
    }
}

// Numbers in order.
pub fn numbers<T: Number>(sum: u64, numbers: &[T]) -> u64
    ensures { result ≡ folds sum (T.values numbers.now) }
{
    let mut all = sum;
    for n in numbers {
        all = fold(all, n.number());
    }
    all
}
