//! Single cells of a tableau.
ghost use Rattle.std.specs.Prelude.{◌≡◌, ◌≢◌, ◌↔◌, ◌<ℤ◌, ℤ, pos, IsTrue, IfSome, IfNone, false};
ghost use Rattle.exact_simplex.specs.Changes.{CellFor, CellForFits, IsTaken, ShareFor};
ghost use Rattle.exact_simplex.specs.Pivots.{CellFits, QuotientFits};

use exact_fraction::{Fraction, whole};

/// Whether the number is below 0.
pub fn is_below_none(cell: Fraction) -> bool
    ensures { IsTrue result ↔ (cell.num <ℤ pos 0) }
{
    cell.num < 0
}

/// Whether the number is above 0.
pub fn is_above_none(cell: Fraction) -> bool
    ensures { IsTrue result ↔ (pos 0 <ℤ cell.num) }
{
    cell.num > 0
}

/// Whether the number is 0.
pub fn is_none(cell: Fraction) -> bool
    ensures { IsTrue result ↔ (cell.num ≡ pos 0) }
{
    cell.num == 0
}

/// The share of a column: its cell over the pivot, and 0 in the pivot's own column.
pub fn share_of(cell: Fraction, pivot: Fraction, own: bool) -> Option<Fraction>
    requires { pos 0 <ℤ pivot.num }
    ensures share { IfSome result (λ share. ShareFor own share cell pivot) }
    ensures none { IfNone result (QuotientFits cell pivot → ⊥) }
    ensures other { IfNone result (own ≡ false) }
{
    if own { Some(whole(0)) } else { cell.div(pivot) }
}

/// The old cell less factor times share.
fn taken(old: Fraction, factor: Fraction, share: Fraction) -> Option<Fraction>
    ensures cell { IfSome result (λ new. IsTaken new old factor share) }
    ensures none { IfNone result (CellFits old factor share → ⊥) }
{
    if is_none(share) {
        return Some(old);
    }
    let Some(change) = factor.mul(share) else {
        return None;
    };
    old.sub(change)
}

/// The new cell of a column.
pub fn cell_after(
    old: Fraction,
    factor: Fraction,
    share: Fraction,
    pivot: Fraction,
    own: bool,
) -> Option<Fraction>
    requires { pos 0 <ℤ pivot.num }
    ensures cell { IfSome result (λ new. CellFor own new old factor share pivot) }
    ensures none { IfNone result (CellForFits own old factor share pivot → ⊥) }
{
    if own {
        factor.div(pivot)
    } else {
        taken(old, factor, share)
    }
}
