//! Products, sums and quotients that keep within 2^126.
ghost use Rattle.std.specs.Prelude.{◌≡◌, ◌<◌, ◌≤◌, ◌^◌, pos, ◌+ℤ◌, ◌*ℤ◌, neg_ℤ, unsigned_abs, int_div};
ghost use Rattle.std.specs.Option.{SomeIff};
ghost use Rattle.std.specs.Int.{IsGcd};
ghost use Rattle.exact_fraction.specs.Sizes.{IsSmall};
ghost use Rattle.exact_fraction.specs.Exact.{MixFits};

use crate::euclid::gcd;

/// The number, where its magnitude is at most 2^126.
pub fn kept(n: i128) -> Option<i128>
    ensures { SomeIff result (IsSmall n) n }
{
    if n.unsigned_abs() <= 0x4000_0000_0000_0000_0000_0000_0000_0000 {
        Some(n)
    } else {
        None
    }
}

/// The product of numbers that 64 bits hold.
fn narrow_product(a: i64, b: i64) -> i128
    ensures value { result ≡ a *ℤ b }
    ensures small { IsSmall result }
{
    i128::from(a) * i128::from(b)
}

/// The product, where its magnitude is at most 2^126.
pub fn product(a: i128, b: i128) -> Option<i128>
    ensures { SomeIff result (IsSmall (a *ℤ b)) (a *ℤ b) }
{
    if -0x8000_0000_0000_0000 <= a
        && a <= 0x7fff_ffff_ffff_ffff
        && -0x8000_0000_0000_0000 <= b
        && b <= 0x7fff_ffff_ffff_ffff
    {
        Some(narrow_product(a as i64, b as i64))
    } else {
        match a.checked_mul(b) {
            Some(n) => kept(n),
            None => None,
        }
    }
}

/// The sum, where its magnitude is at most 2^126.
pub fn sum(a: i128, b: i128) -> Option<i128>
    ensures { SomeIff result (IsSmall (a +ℤ b)) (a +ℤ b) }
{
    match a.checked_add(b) {
        Some(n) => kept(n),
        None => None,
    }
}

/// The exact quotient of a number and one of its divisors.
pub fn quotient(n: i128, g: u128) -> i128
    requires small { IsSmall n }
    requires above_none { 1 ≤ g }
    requires most { g ≤ 2 ^ 126 }
    ensures { result ≡ int_div n (pos g) }
{
    if g == 1 {
        n
    } else if -0x7fff_ffff_ffff_ffff <= n
        && n <= 0x7fff_ffff_ffff_ffff
        && g <= 0x7fff_ffff_ffff_ffff
    {
        i128::from(n as i64 / g as i64)
    } else {
        n / g as i128
    }
}

/// The sum of two products, where neither they nor it passes 2^126.
pub fn mix(a: i128, d: i128, c: i128, b: i128) -> Option<i128>
    ensures { SomeIff result (MixFits a d c b) (a *ℤ d +ℤ c *ℤ b) }
{
    match product(a, d) {
        None => None,
        Some(left) => match product(c, b) {
            None => None,
            Some(right) => sum(left, right),
        },
    }
}

/// The greatest common divisor of a number's magnitude and m.
pub fn divisor(n: i128, m: u128) -> u128
    requires above_none { 1 ≤ m }
    requires most { m ≤ 2 ^ 126 }
    ensures gcd { IsGcd (unsigned_abs n) m result }
    ensures above_none { 1 ≤ result }
    ensures most { result ≤ 2 ^ 126 }
{
    if m == 1 { 1 } else { gcd(n.unsigned_abs(), m) }
}
