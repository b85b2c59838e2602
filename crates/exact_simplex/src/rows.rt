//! The rows that a pivot makes.
ghost use Rattle.std.specs.Prelude.{◌≡◌, ℕ, ◌<◌, ◌^◌, ◌<ℤ◌, ◌==◌, pos, length, IfOk, IfSome, IfNone, unwrap_or};
ghost use Rattle.exact_simplex.specs.Cells.{cell_of, row_of};
ghost use Rattle.exact_simplex.specs.Pivots.{PivotFits};
ghost use Rattle.exact_simplex.specs.Changes.{AreChanges, ArePivotChanges, AreShares, ChangeFits, ChangeFor, ChangesFit, IsRowAfter, IsUnitRow, RowAfterFits, SharesFit, change_at};

use crate::merge::{first_column, keep, taken_at};
use crate::numbers::{cell_after, is_none, share_of};
use crate::tableau_row::TableauRow;
use exact_fraction::{Fraction, whole};
use ras_table::List;
use std::alloc::{AllocError, Global};

/// The cell in a row and a column.
pub fn cell_at(cells: &[TableauRow], row: usize, column: usize) -> Fraction
    requires row { row < length cells.now }
    requires column { column < length (row_of cells.now row) }
    ensures { result ≡ cell_of (row_of cells.now row) column }
{
    cells[row].cell(column)
}

/// The shares of all columns.
pub fn shares_of(
    alloc: Global,
    row: &TableauRow,
    column: usize,
    pivot: Fraction,
) -> Result<Option<TableauRow>, AllocError>
    requires { pos 0 <ℤ pivot.num }
    ensures shares { IfOk result (λ found. IfSome found (λ shares. AreShares shares row.now column pivot)) }
    ensures none { IfOk result (λ found. IfNone found (SharesFit row.now column pivot → ⊥)) }
{
    let kept = row.kept();
    let mut shares = Vec::with_capacity(alloc, kept.len())?;
    for cell in kept {
        let own = cell.column as usize == column;
        let Some(share) = share_of(cell.value, pivot, own) else {
            return Ok(None);
        };
        keep(&mut shares, cell.column, share)?;
    }
    Ok(Some(TableauRow::of(row.size(), shares)))
}

/// The new row of a row that is not the pivot's: where neither the row nor the shares keep a cell, the new row keeps none.
pub fn row_after(
    alloc: Global,
    row: &TableauRow,
    shares: &TableauRow,
    column: usize,
    pivot: Fraction,
) -> Result<Option<TableauRow>, AllocError>
    requires column { column < length row.now }
    requires shares { length shares.now ≡ length row.now }
    requires pivot { pos 0 <ℤ pivot.num }
    ensures row { IfOk result (λ found. IfSome found (λ new. IsRowAfter new row.now shares.now column pivot)) }
    ensures none { IfOk result (λ found. IfNone found (RowAfterFits row.now shares.now column pivot → ⊥)) }
{
    let factor = row.cell(column);
    let mut left = row.kept();
    let mut right = shares.kept();
    let mut new = Vec::with_capacity(alloc, left.len() + right.len())?;
    while let Some(place) = first_column(left, right) {
        let (old, later) = taken_at(left, place);
        let (share, later_shares) = taken_at(right, place);
        let Some(cell) = cell_after(old, factor, share, pivot, place as usize == column) else {
            return Ok(None);
        };
        keep(&mut new, place, cell)?;
        left = later;
        right = later_shares;
    }
    Ok(Some(TableauRow::of(row.size(), new)))
}

/// The row with 1 in a column and 0 elsewhere.
pub fn unit_row(alloc: Global, size: u32, column: u32) -> Result<TableauRow, AllocError>
    requires { column < size }
    ensures { IfOk result (λ row. IsUnitRow row column size) }
{
    let mut kept = Vec::with_capacity(alloc, 1)?;
    keep(&mut kept, column, whole(1))?;
    Ok(TableauRow::of(size, kept))
}

/// What becomes of a row in a pivot.
fn change_of(
    alloc: Global,
    row: &TableauRow,
    shares: &TableauRow,
    column: usize,
    pivot: Fraction,
    own: bool,
) -> Result<Option<Option<TableauRow>>, AllocError>
    requires column { column < length row.now }
    requires shares { length shares.now ≡ length row.now }
    requires pivot { pos 0 <ℤ pivot.num }
    ensures change { IfOk result (λ found. IfSome found (λ change. ChangeFor own change row.now shares.now column pivot)) }
    ensures none { IfOk result (λ found. IfNone found (ChangeFits own row.now shares.now column pivot → ⊥)) }
{
    if own {
        return Ok(Some(Some(unit_row(alloc, row.size(), column as u32)?)));
    }
    if is_none(row.cell(column)) {
        return Ok(Some(None));
    }
    let Some(new) = row_after(alloc, row, shares, column, pivot)? else {
        return Ok(None);
    };
    Ok(Some(Some(new)))
}

/// What becomes of each row in a pivot.
pub fn changes_of(
    alloc: Global,
    cells: &[TableauRow],
    place: usize,
    shares: &TableauRow,
    column: usize,
    pivot: Fraction,
) -> Result<Option<Vec<Option<TableauRow>>>, AllocError>
    requires sizes { (i : ℕ) → i < length cells.now → length (row_of cells.now i) ≡ length shares.now }
    requires column { column < length shares.now }
    requires pivot { pos 0 <ℤ pivot.num }
    ensures changes { IfOk result (λ found. IfSome found (λ changes. AreChanges changes.items cells.now place shares.now column pivot)) }
    ensures none { IfOk result (λ found. IfNone found (ChangesFit cells.now place shares.now column pivot → ⊥)) }
{
    let mut changes = Vec::with_capacity(alloc, cells.len())?;
    for (i, row) in cells.iter().enumerate() {
        let found = change_of(alloc, row, shares, column, pivot, i == place)?;
        let Some(change) = found else {
            return Ok(None);
        };
        changes.push(change)?;
    }
    Ok(Some(changes))
}

/// Puts each new row in its place.
pub fn put_rows(cells: &mut List<TableauRow>, mut changes: Vec<Option<TableauRow>>)
    requires { length changes.items ≡ length cells.old }
    ensures size { length cells.new ≡ length cells.old }
    ensures rows { (i : ℕ) → i < length cells.old → row_of cells.new i ≡ unwrap_or (change_at changes.items i) (row_of cells.old i) }
{
    let mut place = cells.len();
    while let Some(change) = changes.pop() {
        place -= 1;
        if let Some(row) = change {
            cells.set(place, row);
        }
    }
}

/// What becomes of each row in the written pivot at a row and a column, or None where it does not fit.
pub fn pivot_changes(
    alloc: Global,
    cells: &[TableauRow],
    place: usize,
    column: usize,
) -> Result<Option<Vec<Option<TableauRow>>>, AllocError>
    requires place { place < length cells.now }
    requires column { column < length (row_of cells.now place) }
    requires sizes { (i : ℕ) → i < length cells.now → length (row_of cells.now i) ≡ length (row_of cells.now place) }
    requires pivot { pos 0 <ℤ (cell_of (row_of cells.now place) column).num }
    ensures changes { IfOk result (λ found. IfSome found (λ changes. ArePivotChanges changes.items cells.now place column)) }
    ensures none { IfOk result (λ found. IfNone found (PivotFits cells.now place column → ⊥)) }
{
    let row = &cells[place];
    let pivot = row.cell(column);
    let Some(shares) = shares_of(alloc, row, column, pivot)? else {
        return Ok(None);
    };
    changes_of(alloc, cells, place, &shares, column, pivot)
}
