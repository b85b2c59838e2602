//! The start tableau of a program in a box.
ghost use Rattle.std.specs.Prelude.{◌≡◌, ℕ, ◌+◌, ◌<◌, ◌≤◌, ◌^◌, ◌-ℤ◌, pos, suc, unsigned_abs, IfOk, length, slice_index};
ghost use Rattle.ip_model.specs.Points.{IsBoxOf};
ghost use Rattle.exact_simplex.specs.Beginning.{IsWholeRow, ShowsForm, single_form};
ghost use Rattle.exact_simplex.specs.Cells.{row_of, Shows};
ghost use Rattle.exact_simplex.specs.Forms.{costs, form_at, forms_of, parts_of, room, step, surplus};
ghost use Rattle.exact_simplex.specs.Start.{start_of};

use crate::lows::{cost_slopes, costs_at_lows, factor_slopes, terms_at_lows};
use crate::merge::keep;
use crate::table::Tableau;
use crate::tableau_row::TableauRow;
use exact_fraction::whole;
use ip_model::{Bounds, Program};
use ras_table::List;
use std::alloc::{AllocError, Global};

/// The row of a value and slopes.
fn whole_row(alloc: Global, value: i64, slopes: &[i64]) -> Result<TableauRow, AllocError>
    requires { length slopes.now < 2 ^ 31 }
    ensures { IfOk result (λ row. IsWholeRow row value slopes.now) }
{
    let mut kept = Vec::new(alloc);
    keep(&mut kept, 0, whole(value))?;
    for (k, slope) in slopes.iter().enumerate() {
        keep(&mut kept, k as u32 + 1, whole(*slope))?;
    }
    Ok(TableauRow::of(slopes.len() as u32 + 1, kept))
}

/// The row of a value and one factor.
fn single_row(
    alloc: Global,
    columns: u32,
    value: i64,
    place: u32,
    factor: i64,
) -> Result<TableauRow, AllocError>
    requires few { columns < 2 ^ 31 }
    requires place { place < columns }
    ensures { IfOk result (λ row. ShowsForm columns row (single_form value place factor)) }
{
    let mut kept = Vec::with_capacity(alloc, 2)?;
    keep(&mut kept, 0, whole(value))?;
    keep(&mut kept, place + 1, whole(factor))?;
    Ok(TableauRow::of(columns + 1, kept))
}

/// The row of the costs.
fn cost_row(alloc: Global, program: &Program, bounds: &Bounds) -> Result<TableauRow, AllocError>
    requires { IsBoxOf program.now bounds.now }
    ensures { IfOk result (λ row. ShowsForm (length program.now.columns) row (form_at (parts_of program.now bounds.now) costs)) }
{
    let columns = program.columns.as_slice();
    let slopes = cost_slopes(alloc, columns)?;
    let value = costs_at_lows(program, bounds);
    let given = slopes.as_slice();
    whole_row(alloc, value, given)
}

/// The row of a column's step above its low number.
fn step_row(
    alloc: Global,
    program: &Program,
    bounds: &Bounds,
    j: usize,
) -> Result<TableauRow, AllocError>
    requires { j < length program.now.columns }
    ensures { IfOk result (λ row. ShowsForm (length program.now.columns) row (form_at (parts_of program.now bounds.now) (step j))) }
{
    single_row(alloc, program.columns.len(), 0, j as u32, 1)
}

/// How far a sum lies above what its row asks.
fn above_least(sum: i64, least: i32) -> i64
    requires { unsigned_abs sum ≤ 2 ^ 50 }
    ensures { result ≡ sum -ℤ least }
{
    sum - i64::from(least)
}

/// How far the low and the high number of a column lie apart.
fn width(bounds: &Bounds, j: usize) -> i64
    requires low { j < length bounds.now.low }
    requires high { j < length bounds.now.high }
    ensures { result ≡ pos (slice_index bounds.now.high j) -ℤ pos (slice_index bounds.now.low j) }
{
    i64::from(bounds.high.as_slice()[j]) - i64::from(bounds.low.as_slice()[j])
}

/// The row of a program row's surplus.
fn surplus_row(
    alloc: Global,
    program: &Program,
    bounds: &Bounds,
    i: usize,
) -> Result<TableauRow, AllocError>
    requires is_box { IsBoxOf program.now bounds.now }
    requires row { i < length program.now.rows }
    ensures { IfOk result (λ row. ShowsForm (length program.now.columns) row (form_at (parts_of program.now bounds.now) (surplus i))) }
{
    let columns = program.columns.as_slice();
    let rows = program.rows.as_slice();
    let line = &rows[i];
    let terms = line.terms.as_slice();
    let slopes = factor_slopes(alloc, terms, columns.len())?;
    let low = bounds.low.as_slice();
    let at_lows = terms_at_lows(terms, low);
    let value = above_least(at_lows, line.least);
    let given = slopes.as_slice();
    whole_row(alloc, value, given)
}

/// The row of a column's room below its high number.
fn room_row(
    alloc: Global,
    program: &Program,
    bounds: &Bounds,
    j: usize,
) -> Result<TableauRow, AllocError>
    requires is_box { IsBoxOf program.now bounds.now }
    requires column { j < length program.now.columns }
    ensures { IfOk result (λ row. ShowsForm (length program.now.columns) row (form_at (parts_of program.now bounds.now) (room j))) }
{
    let value = width(bounds, j);
    single_row(alloc, program.columns.len(), value, j as u32, -1)
}

/// A row of the start tableau.
fn start_row(
    alloc: Global,
    program: &Program,
    bounds: &Bounds,
    i: usize,
) -> Result<TableauRow, AllocError>
    requires is_box { IsBoxOf program.now bounds.now }
    requires row { i < suc (length program.now.columns + length program.now.rows + length program.now.columns) }
    ensures { IfOk result (λ row. ShowsForm (length program.now.columns) row (forms_of (parts_of program.now bounds.now) i)) }
{
    let columns = program.columns.as_slice().len();
    let rows = program.rows.as_slice().len();
    if i == 0 {
        return cost_row(alloc, program, bounds);
    }
    if i - 1 < columns {
        return step_row(alloc, program, bounds, i - 1);
    }
    if i - 1 < columns + rows {
        return surplus_row(alloc, program, bounds, i - 1 - columns);
    }
    room_row(alloc, program, bounds, i - 1 - columns - rows)
}

/// The rows of the start tableau.
fn start_rows(
    alloc: Global,
    program: &Program,
    bounds: &Bounds,
) -> Result<List<TableauRow>, AllocError>
    requires { IsBoxOf program.now bounds.now }
    ensures size { IfOk result (λ cells. length cells ≡ suc (length program.now.columns + length program.now.rows + length program.now.columns)) }
    ensures rows { IfOk result (λ cells. (i : ℕ) → i < length cells → ShowsForm (length program.now.columns) (row_of cells i) (forms_of (parts_of program.now bounds.now) i)) }
{
    let columns = program.columns.as_slice().len();
    let count = columns + program.rows.as_slice().len() + columns + 1;
    let mut cells = Vec::with_capacity(alloc, count)?;
    for i in 0..count {
        let row = start_row(alloc, program, bounds, i)?;
        cells.push(row)?;
    }
    Ok(List::from_vec(cells))
}

/// The units at the start: those of the columns are their steps.
fn start_units(alloc: Global, columns: u32) -> Result<List<u32>, AllocError>
    requires { columns < 2 ^ 31 }
    ensures size { IfOk result (λ units. length units ≡ columns) }
    ensures units { IfOk result (λ units. (k : ℕ) → k < columns → slice_index units k ≡ suc k) }
{
    let mut units = Vec::with_capacity(alloc, columns as usize)?;
    for k in 0..columns {
        units.push(k + 1)?;
    }
    Ok(List::from_vec(units))
}

/// The start tableau.
pub fn start(alloc: Global, program: &Program, bounds: &Bounds) -> Result<Tableau, AllocError>
    requires { IsBoxOf program.now bounds.now }
    ensures size { IfOk result (λ at. length at.cells ≡ suc (length program.now.columns + length program.now.rows + length program.now.columns)) }
    ensures shows { IfOk result (λ at. Shows (length program.now.columns) at.cells at.units (start_of (parts_of program.now bounds.now))) }
{
    let cells = start_rows(alloc, program, bounds)?;
    let units = start_units(alloc, program.columns.len())?;
    Ok(Tableau { cells, units })
}
