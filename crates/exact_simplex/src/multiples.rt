//! Multipliers of a program's rows, from numbers.
ghost use Rattle.std.specs.Prelude.{◌≡◌, ℕ, ◌+◌, ◌<◌, ◌≤◌, ◌^◌, pos, All, IfOk, IfSome, IfNone, length, slice_index};
ghost use Rattle.bound_certificate.specs.declared.multipliers.Multipliers.{Multipliers};
ghost use Rattle.exact_simplex.specs.Cells.{cell_of};
ghost use Rattle.exact_simplex.specs.Duals.{AreExactOrRounded, AreMultipliers, IsListed, IsRounded, num_at};

use crate::commons::{LARGEST, common_den, nums_over};
use bound_certificate::{Multipliers, Top};
use exact_fraction::Fraction;
use ras_table::List;
use std::alloc::{AllocError, Global};

/// The denominator of multipliers that are rounded down.
const ROUNDED: u64 = 1 << 40;

/// The number `top / den` in units of 1 over 2^40, rounded down, up to 2^60. The rest is doubled 40 times, a bit each, since 2^40 times it may pass
/// 128 bits.
fn rounded(top: u128, den: u128) -> u64
    requires some { 1 ≤ den }
    requires most { den ≤ 2 ^ 126 }
    ensures { IsRounded (pos top) (pos den) result }
{
    let whole = top / den;
    // 2^20 is 2^60 of these units
    if whole >= 1 << 20 {
        return LARGEST;
    }
    let mut num = whole as u64;
    let mut rest = top % den;
    for bit in 0..40_u32 {
        let double = 2 * rest;
        num = 2 * num + (double / den) as u64;
        rest = double % den;
    }
    num
}

/// A number in units of 1 over 2^40, rounded down, from 0 to 2^60.
fn num_rounded(number: Fraction) -> u64
    ensures { IsRounded number.num number.den result }
{
    if number.num <= 0 {
        return 0;
    }
    rounded(number.num.unsigned_abs(), number.den.unsigned_abs())
}

/// The numbers in units of 1 over 2^40, rounded down.
fn nums_rounded(alloc: Global, numbers: &[Fraction]) -> Result<Vec<u64>, AllocError>
    ensures size { IfOk result (λ nums. length nums.items ≡ length numbers.now) }
    ensures nums { IfOk result (λ nums. (i : ℕ) → i < length numbers.now → IsRounded (cell_of numbers.now i).num (cell_of numbers.now i).den (slice_index nums.items i)) }
{
    let mut nums = Vec::with_capacity(alloc, numbers.len())?;
    for number in numbers {
        nums.push(num_rounded(*number))?;
    }
    Ok(nums)
}

/// Adds a row's multiplier, where it is above 0.
fn push_top(tops: &mut Vec<Top>, row: u32, num: u64, den: u64) -> Result<(), AllocError>
    requires listed { IsListed den tops.old.items row }
    requires most { num ≤ 2 ^ 60 }
    ensures listed { IfOk result (λ _. IsListed den tops.new.items (row + 1)) }
    ensures own { IfOk result (λ _. num_at tops.new.items row ≡ num) }
    ensures others { IfOk result (λ _. (i : ℕ) → i < row → num_at tops.new.items i ≡ num_at tops.old.items i) }
{
    if num > 0 {
        tops.push(Top { row, num })?;
    }
    Ok(())
}

/// The multipliers with these numerators over a denominator.
fn listed(alloc: Global, den: u64, nums: &[u64]) -> Result<Multipliers, AllocError>
    requires den { 1 ≤ den }
    requires den_most { den ≤ 2 ^ 60 }
    requires few { length nums.now < 2 ^ 32 }
    requires most { (i : ℕ) → i < length nums.now → slice_index nums.now i ≤ 2 ^ 60 }
    ensures rows { IfOk result (λ y. All (λ top. top.row < length nums.now) y.tops) }
    ensures den { IfOk result (λ y. y.den ≡ den) }
    ensures nums { IfOk result (λ y. (i : ℕ) → i < length nums.now → num_at y.tops i ≡ slice_index nums.now i) }
{
    let mut tops = Vec::new(alloc);
    for i in 0..nums.len() as u32 {
        push_top(&mut tops, i, nums[i as usize], den)?;
    }
    Ok(Multipliers {
        den,
        tops: List::from_vec(tops),
    })
}

/// The multipliers of rows that are these numbers, where they fit.
pub fn exact_multipliers(
    alloc: Global,
    weights: &[Fraction],
) -> Result<Option<Multipliers>, AllocError>
    requires { length weights.now < 2 ^ 32 }
    ensures exact { IfOk result (λ found. IfSome found (λ y. AreMultipliers weights.now y)) }
    ensures none { IfOk result (λ found. IfNone found ((y : Multipliers) → AreMultipliers weights.now y → ⊥)) }
{
    let Some(den) = common_den(weights) else {
        return Ok(None);
    };
    let Some(nums) = nums_over(alloc, weights, den)? else {
        return Ok(None);
    };
    Ok(Some(listed(alloc, den, nums.as_slice())?))
}

/// The multipliers of rows with these weights, rounded down where they do not fit.
pub fn near_multipliers(alloc: Global, weights: &[Fraction]) -> Result<Multipliers, AllocError>
    requires { length weights.now < 2 ^ 32 }
    ensures rows { IfOk result (λ y. All (λ top. top.row < length weights.now) y.tops) }
    ensures near { IfOk result (λ y. AreExactOrRounded weights.now y) }
{
    if let Some(exact) = exact_multipliers(alloc, weights)? {
        return Ok(exact);
    }
    let nums = nums_rounded(alloc, weights)?;
    listed(alloc, ROUNDED, nums.as_slice())
}
