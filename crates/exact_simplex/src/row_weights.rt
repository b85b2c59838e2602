//! The weights of a program's rows in the rows of a tableau.
ghost use Rattle.std.specs.Prelude.{◌≡◌, ℕ, ◌+◌, ◌<◌, ◌≤◌, ◌^◌, suc, pos, neg_ℤ, length, slice_index, IfOk};
ghost use Rattle.exact_simplex.specs.Cells.{cell_of, row_of};
ghost use Rattle.exact_simplex.specs.Certificates.{IsRefutingWeight, IsSurplus, IsWeight, UnitsDiffer};

use crate::table::Tableau;
use crate::tableau_row::TableauRow;
use exact_fraction::{Fraction, whole};
use std::alloc::{AllocError, Global};

/// So many numbers 0.
fn no_weights(alloc: Global, rows: u32) -> Result<Vec<Fraction>, AllocError>
    ensures size { IfOk result (λ weights. length weights.items ≡ rows) }
    ensures none { IfOk result (λ weights. (i : ℕ) → i < rows → (cell_of weights.items i).num ≡ pos 0) }
{
    let mut weights = Vec::with_capacity(alloc, rows as usize)?;
    for i in 0..rows {
        weights.push(whole(0))?;
    }
    Ok(weights)
}

/// Puts the weight of a row of the tableau, where that is a program row's surplus.
fn put_weight(weights: &mut Vec<Fraction>, columns: u32, row: u32, weight: Fraction)
    ensures size { length weights.new.items ≡ length weights.old.items }
    ensures put { (i : ℕ) → i < length weights.old.items → IsSurplus columns row i → cell_of weights.new.items i ≡ weight }
    ensures others { (i : ℕ) → (IsSurplus columns row i → ⊥) → cell_of weights.new.items i ≡ cell_of weights.old.items i }
{
    if row > columns {
        let place = (row - columns - 1) as usize;
        if place < weights.len() {
            weights[place] = weight;
        }
    }
}

/// The weights that a row of numbers gives to the program's rows: the numbers of the columns whose units are surpluses.
fn weights_of(
    alloc: Global,
    units: &[u32],
    row: &[Fraction],
    rows: u32,
) -> Result<Vec<Fraction>, AllocError>
    requires few { length units.now < 2 ^ 31 }
    requires size { length row.now ≡ suc (length units.now) }
    requires units { UnitsDiffer units.now }
    ensures size { IfOk result (λ weights. length weights.items ≡ rows) }
    ensures weights { IfOk result (λ weights. (i : ℕ) → i < rows → IsWeight units.now row.now (length units.now) i (cell_of weights.items i).num (cell_of weights.items i).den) }
{
    let columns = units.len() as u32;
    let mut weights = no_weights(alloc, rows)?;
    for k in 0..columns {
        let place = k as usize;
        put_weight(&mut weights, columns, units[place], row[place + 1]);
    }
    Ok(weights)
}

/// The cells of all columns of a row.
fn cells_of(alloc: Global, row: &TableauRow) -> Result<Vec<Fraction>, AllocError>
    ensures { IfOk result (λ cells. cells.items ≡ row.now) }
{
    let size = row.size() as usize;
    let mut cells = Vec::with_capacity(alloc, size)?;
    for c in 0..size {
        cells.push(row.cell(c))?;
    }
    Ok(cells)
}

/// The weights of the program's rows in the row of the costs.
pub fn dual_weights(alloc: Global, at: &Tableau, rows: u32) -> Result<Vec<Fraction>, AllocError>
    requires some { 0 < length at.now.cells }
    requires units { UnitsDiffer at.now.units }
    ensures size { IfOk result (λ weights. length weights.items ≡ rows) }
    ensures weights { IfOk result (λ weights. (i : ℕ) → i < rows → IsWeight at.now.units (row_of at.now.cells 0) (length at.now.units) i (cell_of weights.items i).num (cell_of weights.items i).den) }
{
    let cells = cells_of(alloc, &at.cells.as_slice()[0])?;
    weights_of(alloc, at.units.as_slice(), cells.as_slice(), rows)
}

/// The cells of all columns of a row, with their signs turned.
fn turned(alloc: Global, row: &TableauRow) -> Result<Vec<Fraction>, AllocError>
    ensures size { IfOk result (λ turned. length turned.items ≡ length row.now) }
    ensures nums { IfOk result (λ turned. (c : ℕ) → c < length row.now → (cell_of turned.items c).num ≡ neg_ℤ (cell_of row.now c).num) }
    ensures dens { IfOk result (λ turned. (c : ℕ) → c < length row.now → (cell_of turned.items c).den ≡ (cell_of row.now c).den) }
{
    let size = row.size() as usize;
    let mut turned = Vec::with_capacity(alloc, size)?;
    for c in 0..size {
        turned.push(row.cell(c).negated())?;
    }
    Ok(turned)
}

/// The weights that refute: those of the row with its signs turned, and 1 for the row itself.
pub fn refuting_weights(
    alloc: Global,
    at: &Tableau,
    row: u32,
    rows: u32,
) -> Result<Vec<Fraction>, AllocError>
    requires row { row < length at.now.cells }
    requires units { UnitsDiffer at.now.units }
    requires apart { (k : ℕ) → k < length at.now.units → slice_index at.now.units k ≡ row → ⊥ }
    ensures size { IfOk result (λ weights. length weights.items ≡ rows) }
    ensures weights { IfOk result (λ weights. (i : ℕ) → i < rows → IsRefutingWeight at.now.units (row_of at.now.cells row) row i (cell_of weights.items i).num (cell_of weights.items i).den) }
{
    let units = at.units.as_slice();
    let turned = turned(alloc, &at.cells.as_slice()[row as usize])?;
    let mut weights = weights_of(alloc, units, turned.as_slice(), rows)?;
    put_weight(&mut weights, units.len() as u32, row, whole(1));
    Ok(weights)
}
