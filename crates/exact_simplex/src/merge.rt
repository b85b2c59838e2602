//! Two rows read side by side, and a row made cell by cell.
ghost use Rattle.std.specs.Prelude.{◌≡◌, ◌≢◌, ℕ, suc, ◌<◌, ◌≤◌, [], pos, length, IfOk, IfSome, IfNone};
ghost use Rattle.exact_simplex.specs.Kept.{AreBelow, HasFirst, IsFirstColumn, IsRising, value_of};

use crate::numbers::is_none;
use crate::tableau_row::{Kept, nothing};
use exact_fraction::Fraction;
use std::alloc::AllocError;

/// The first column that one of two rows keeps.
pub fn first_column(left: &[Kept], right: &[Kept]) -> Option<u32>
    ensures first { IfSome result (λ column. IsFirstColumn column left.now right.now) }
    ensures none { IfNone result ((left.now ≡ []) × (right.now ≡ [])) }
{
    match (left.first(), right.first()) {
        (Some(a), Some(b)) => Some(a.column.min(b.column)),
        (Some(a), None) => Some(a.column),
        (None, Some(b)) => Some(b.column),
        (None, None) => None,
    }
}

/// What a row keeps in a column that no kept cell lies before, and the kept cells after it.
pub fn taken_at(kept: &[Kept], column: u32) -> (Fraction, &[Kept])
    requires rising { IsRising column kept.now }
    ensures value { result.0 ≡ value_of kept.now column }
    ensures rising { IsRising (suc column) result.1.now }
    ensures later { (c : ℕ) → column < c → value_of result.1.now c ≡ value_of kept.now c }
    ensures below { (most : ℕ) → AreBelow most kept.now → AreBelow most result.1.now }
    ensures fewer { length result.1.now ≤ length kept.now }
    ensures less { HasFirst column kept.now → length result.1.now < length kept.now }
{
    match kept.first() {
        Some(first) if first.column == column => (first.value, kept.split_at(1).1),
        _ => (nothing(), kept),
    }
}

/// Keeps a cell after the others, where it is not 0.
pub fn keep(kept: &mut Vec<Kept>, column: u32, value: Fraction) -> Result<(), AllocError>
    requires rising { IsRising 0 kept.old.items }
    requires below { AreBelow column kept.old.items }
    ensures rising { IfOk result (λ _. IsRising 0 kept.new.items) }
    ensures below { IfOk result (λ _. AreBelow (suc column) kept.new.items) }
    ensures num { IfOk result (λ _. (value_of kept.new.items column).num ≡ value.num) }
    ensures den { IfOk result (λ _. (value_of kept.new.items column).den ≡ value.den) }
    ensures others { IfOk result (λ _. (c : ℕ) → c ≢ column → value_of kept.new.items c ≡ value_of kept.old.items c) }
{
    if !is_none(value) {
        kept.push(Kept { column, value })?;
    }
    Ok(())
}
