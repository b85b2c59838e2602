//! Common denominators of fractions, up to 2^60.
ghost use Rattle.std.specs.Prelude.{◌≡◌, ℕ, ◌*◌, ◌<◌, ◌≤◌, ◌^◌, unsigned_abs, length, slice_index, IfOk, IfSome, IfNone};
ghost use Rattle.std.specs.Int.{◌∣◌};
ghost use Rattle.std.specs.Option.{SomeIff};
ghost use Rattle.exact_simplex.specs.Cells.{cell_of};
ghost use Rattle.exact_simplex.specs.Commons.{AreNumsOver, AreOver, IsLeastMultiple, IsLeastOver, IsNumOver};

use exact_fraction::{Fraction, gcd};
use std::alloc::{AllocError, Global};

/// The largest denominator and numerator of a certificate.
pub const LARGEST: u64 = 1 << 60;

/// A product, where it is at most 2^60.
fn multiple(n: u64, times: u128) -> Option<u64>
    ensures { SomeIff result (n * times ≤ 2 ^ 60) (n * times) }
{
    match u128::from(n).checked_mul(times) {
        Some(wide) if wide <= u128::from(LARGEST) => Some(wide as u64),
        _ => None,
    }
}

/// The least common multiple of two denominators, where it is at most 2^60.
fn common(den: u64, other: u128) -> Option<u64>
    requires den { 1 ≤ den }
    requires other { 1 ≤ other }
    ensures both { IfSome result (λ both. IsLeastMultiple den other both) }
    ensures none { IfNone result ((d : ℕ) → 1 ≤ d → d ≤ 2 ^ 60 → den ∣ d → other ∣ d → ⊥) }
{
    let shared = gcd(u128::from(den), other);
    multiple(den, other / shared)
}

/// The least common denominator of numbers, where it is at most 2^60.
pub fn common_den(numbers: &[Fraction]) -> Option<u64>
    ensures den { IfSome result (λ den. IsLeastOver (length numbers.now) numbers.now den) }
    ensures none { IfNone result ((d : ℕ) → 1 ≤ d → d ≤ 2 ^ 60 → AreOver (length numbers.now) numbers.now d → ⊥) }
{
    let mut den = 1;
    for number in numbers {
        let Some(both) = common(den, number.den.unsigned_abs()) else {
            return None;
        };
        den = both;
    }
    Some(den)
}

/// A number's numerator over a multiple of its denominator, where there is one up to 2^60.
fn num_over(number: Fraction, den: u64) -> Option<u64>
    requires some { 1 ≤ den }
    requires over { unsigned_abs number.den ∣ den }
    ensures most { IfSome result (λ num. num ≤ 2 ^ 60) }
    ensures num { IfSome result (λ num. IsNumOver number num den) }
    ensures none { IfNone result ((num d : ℕ) → 1 ≤ d → den ∣ d → num ≤ 2 ^ 60 → IsNumOver number num d → ⊥) }
{
    if number.num < 0 {
        return None;
    }
    let times = u128::from(den) / number.den.unsigned_abs();
    multiple(times as u64, number.num.unsigned_abs())
}

/// The numerators of numbers over a common denominator, where all are up to 2^60.
pub fn nums_over(
    alloc: Global,
    numbers: &[Fraction],
    den: u64,
) -> Result<Option<Vec<u64>>, AllocError>
    requires { IsLeastOver (length numbers.now) numbers.now den }
    ensures size { IfOk result (λ found. IfSome found (λ nums. length nums.items ≡ length numbers.now)) }
    ensures nums { IfOk result (λ found. IfSome found (λ nums. AreNumsOver numbers.now (slice_index nums.items) den)) }
    ensures none { IfOk result (λ found. IfNone found ((nums : ℕ → ℕ) (d : ℕ) → 1 ≤ d → den ∣ d → AreNumsOver numbers.now nums d → ⊥)) }
{
    let mut nums = Vec::with_capacity(alloc, numbers.len())?;
    for number in numbers {
        let Some(num) = num_over(*number, den) else {
            return Ok(None);
        };
        nums.push(num)?;
    }
    Ok(Some(nums))
}
