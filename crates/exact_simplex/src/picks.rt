//! The choice of a pivot's column.
ghost use Rattle.std.specs.Prelude.{◌≡◌, ℕ, ◌<◌, ◌≤◌, ◌<ℤ◌, ◌⊎◌, suc, pos, length, IfNone, IfSome};
ghost use Rattle.exact_simplex.specs.Cells.{cell_of, row_of};
ghost use Rattle.exact_simplex.specs.Choices.{ChoiceGives, ComparisonGives, FirstCandidate, IsCandidate, IsHeld, IsOrderOf, IsSetting, NextGives, ShowsPair};
ghost use Rattle.exact_simplex.specs.Kept.{IsRising, value_of};
ghost use Rattle.exact_simplex.specs.Pivots.{QuotientFits};
ghost use Rattle.exact_simplex.specs.Tableaus.{Scaled};

use crate::merge::taken_at;
use crate::numbers::{is_above_none, is_none};
use crate::rows::cell_at;
use crate::tableau_row::{Kept, TableauRow};
use exact_fraction::Fraction;
use std::cmp::Ordering;

/// The order of a / p and b / q, where both quotients fit or a and b are 0.
fn order_of_quotients(a: Fraction, p: Fraction, b: Fraction, q: Fraction) -> Option<Ordering>
    requires first { pos 0 <ℤ p.num }
    requires second { pos 0 <ℤ q.num }
    ensures order { IfSome result (λ order. IsOrderOf order a p b q) }
    ensures some { IfNone result ((a.num ≡ pos 0) × (b.num ≡ pos 0) → ⊥) }
    ensures none { IfNone result (QuotientFits a p × QuotientFits b q → ⊥) }
{
    if is_none(a) && is_none(b) {
        return Some(Ordering::Equal);
    }
    let Some(x) = a.div(p) else {
        return None;
    };
    let Some(y) = b.div(q) else {
        return None;
    };
    Some(x.cmp(y))
}

/// Whether the quotients of another column come before those of the held one, by the first row where they differ.
fn comes_before(cells: &[TableauRow], place: usize, held: usize, other: usize) -> Option<bool>
    requires place { place < length cells.now }
    requires held { (i : ℕ) → i < length cells.now → held < length (row_of cells.now i) }
    requires other { (i : ℕ) → i < length cells.now → other < length (row_of cells.now i) }
    requires held_above { IsCandidate cells.now place held }
    requires other_above { IsCandidate cells.now place other }
    ensures { (n : ℕ) (t : Scaled) → ShowsPair n cells.now t place held other → ComparisonGives result cells.now t place held other }
{
    let first = cell_at(cells, place, held);
    let second = cell_at(cells, place, other);
    for i in 0..cells.len() {
        let a = cell_at(cells, i, held);
        let b = cell_at(cells, i, other);
        let Some(order) = order_of_quotients(a, first, b, second) else {
            return None;
        };
        match order {
            Ordering::Less => return Some(false),
            Ordering::Greater => return Some(true),
            Ordering::Equal => {}
        }
    }
    Some(false)
}

/// The cells that a row keeps from a column on.
fn kept_from(kept: &[Kept], column: u32) -> &[Kept]
    requires { IsRising 0 kept.now }
    ensures rising { IsRising column result.now }
    ensures values { (c : ℕ) → column ≤ c → value_of result.now c ≡ value_of kept.now c }
{
    let mut rest = kept;
    for place in 0..column {
        rest = taken_at(rest, place).1;
    }
    rest
}

/// The first candidate of a row.
pub fn first_candidate(cells: &[TableauRow], place: usize, units: u32) -> Option<u32>
    requires place { place < length cells.now }
    requires size { length (row_of cells.now place) ≡ suc units }
    ensures { FirstCandidate result cells.now place units }
{
    let mut rest = kept_from(cells[place].kept(), 1);
    for k in 0..units {
        let (cell, later) = taken_at(rest, k + 1);
        if is_above_none(cell) {
            return Some(k);
        }
        rest = later;
    }
    None
}

/// The unit that is held once another candidate was compared.
fn compared(cells: &[TableauRow], place: usize, held: u32, other: u32) -> Option<u32>
    requires place { place < length cells.now }
    requires held { (i : ℕ) → i < length cells.now → suc held < length (row_of cells.now i) }
    requires other { (i : ℕ) → i < length cells.now → suc other < length (row_of cells.now i) }
    requires candidate { IsCandidate cells.now place (suc held) }
    requires other_candidate { IsCandidate cells.now place (suc other) }
    ensures next { IfSome result (λ next. (next ≡ held) ⊎ (next ≡ other)) }
    ensures candidate { IfSome result (λ next. IsCandidate cells.now place (suc next)) }
    ensures gives { (n : ℕ) (t : Scaled) → IsSetting n cells.now t → other < n → IsHeld cells.now t place other held → NextGives result n cells.now t place other }
{
    let found = comes_before(cells, place, held as usize + 1, other as usize + 1);
    let Some(before) = found else {
        return None;
    };
    if before { Some(other) } else { Some(held) }
}

/// The unit that is held once one more was seen, whose cell in the row is this one.
fn next_held(
    cells: &[TableauRow],
    place: usize,
    held: u32,
    other: u32,
    cell: Fraction,
) -> Option<u32>
    requires cell { cell ≡ cell_of (row_of cells.now place) (suc other) }
    requires place { place < length cells.now }
    requires held { (i : ℕ) → i < length cells.now → suc held < length (row_of cells.now i) }
    requires other { (i : ℕ) → i < length cells.now → suc other < length (row_of cells.now i) }
    requires candidate { IsCandidate cells.now place (suc held) }
    ensures next { IfSome result (λ next. (next ≡ held) ⊎ (next ≡ other)) }
    ensures candidate { IfSome result (λ next. IsCandidate cells.now place (suc next)) }
    ensures gives { (n : ℕ) (t : Scaled) → IsSetting n cells.now t → other < n → IsHeld cells.now t place other held → NextGives result n cells.now t place other }
{
    if is_above_none(cell) {
        return compared(cells, place, held, other);
    }
    Some(held)
}

/// The written choice of a unit, from the first candidate on, or None where it does not fit.
pub fn choose(cells: &[TableauRow], place: usize, first: u32, units: u32) -> Option<u32>
    requires place { place < length cells.now }
    requires sizes { (i : ℕ) → i < length cells.now → length (row_of cells.now i) ≡ suc units }
    requires first { FirstCandidate (Some first) cells.now place units }
    ensures chosen { IfSome result (λ chosen. (chosen < units) × IsCandidate cells.now place (suc chosen)) }
    ensures gives { (t : Scaled) → IsSetting units cells.now t → ChoiceGives result units cells.now t place }
{
    let mut held = first;
    let seen = kept_from(cells[place].kept(), first + 1);
    let mut rest = taken_at(seen, first + 1).1;
    for other in first + 1..units {
        let (cell, later) = taken_at(rest, other + 1);
        let Some(next) = next_held(cells, place, held, other, cell) else {
            return None;
        };
        held = next;
        rest = later;
    }
    Some(held)
}
