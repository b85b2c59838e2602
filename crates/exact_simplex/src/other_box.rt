//! A tableau of one box becomes that of another.
ghost use Rattle.std.specs.Prelude.{◌≡◌, ℕ, ◌+◌, ◌<◌, ◌^◌, ◌*ℤ◌, ◌+ℤ◌, pos, suc, length, All, IfOk, IfSome, IfNone};
ghost use Rattle.ip_model.specs.Points.{IsBoxOf};
ghost use Rattle.exact_fraction.specs.Exact.{IsRatio};
ghost use Rattle.exact_simplex.specs.Cells.{cell_of, row_of};
ghost use Rattle.exact_simplex.specs.Forms.{parts_of};
ghost use Rattle.exact_simplex.specs.Rebounds.{HasValue, IsMoved, IsRowShifted, IsShifted, IsUnitWithin, IsValueAfter, PartFits, ReboundFits, ShiftFits, ShiftsFit, StepAt, StepFitsAt, ValueFits, signed};
ghost use Rattle.exact_simplex.specs.Relaxing.{IsStanding};

use crate::merge::{keep, taken_at};
use crate::shifts::{Shift, shifts_of};
use crate::table::Tableau;
use crate::tableau_row::TableauRow;
use exact_fraction::{Fraction, whole};
use ip_model::{Bounds, Program};
use ras_table::List;
use std::alloc::{AllocError, Global};

/// A number with a part added or taken off.
fn joined(old: Fraction, part: Fraction, adds: bool) -> Option<Fraction>
    ensures value { IfSome result (λ new. IsRatio new.num new.den (old.num *ℤ part.den +ℤ signed adds part.num *ℤ old.den) (old.den *ℤ part.den)) }
    ensures fits { IfSome result (λ _. PartFits adds old part.num part.den) }
    ensures none { IfNone result (PartFits adds old part.num part.den → ⊥) }
{
    if adds { old.add(part) } else { old.sub(part) }
}

/// A number with a whole number added or taken off.
fn moved(old: Fraction, by: i64, adds: bool) -> Option<Fraction>
    ensures value { IfSome result (λ new. IsMoved adds new old by) }
    ensures fits { IfSome result (λ _. PartFits adds old by (pos 1)) }
    ensures none { IfNone result (PartFits adds old by (pos 1) → ⊥) }
{
    joined(old, whole(by), adds)
}

/// A number with a multiple of a factor added or taken off.
fn shifted(old: Fraction, factor: Fraction, by: i64, adds: bool) -> Option<Fraction>
    ensures value { IfSome result (λ new. IsShifted adds new old factor by) }
    ensures fits { IfSome result (λ _. ShiftFits adds old factor by) }
    ensures none { IfNone result (ShiftFits adds old factor by → ⊥) }
{
    let Some(part) = factor.mul(whole(by)) else {
        return None;
    };
    joined(old, part, adds)
}

/// The value of a row after a change.
fn step(row: &TableauRow, place: usize, shift: Shift, old: Fraction) -> Option<Fraction>
    requires { IsUnitWithin row.now shift }
    ensures value { IfSome result (λ new. StepAt place row.now shift old new) }
    ensures fits { IfSome result (λ _. StepFitsAt place row.now shift old) }
    ensures none { IfNone result (StepFitsAt place row.now shift old → ⊥) }
{
    let own = place == shift.row as usize;
    match shift.unit {
        None => {
            if own {
                moved(old, shift.by, !shift.low)
            } else {
                Some(old)
            }
        }
        Some(unit) => {
            if own {
                Some(old)
            } else {
                shifted(old, row.cell(unit as usize + 1), shift.by, shift.low)
            }
        }
    }
}

/// The value of a row after all changes.
fn value_after(row: &TableauRow, place: usize, shifts: &[Shift]) -> Option<Fraction>
    requires some { 0 < length row.now }
    requires units { All (λ shift. IsUnitWithin row.now shift) shifts.now }
    ensures value { IfSome result (λ new. IsValueAfter place row.now shifts.now new) }
    ensures fits { IfSome result (λ _. ValueFits place row.now shifts.now (cell_of row.now 0)) }
    ensures none { IfNone result (ValueFits place row.now shifts.now (cell_of row.now 0) → ⊥) }
{
    let mut value = row.cell(0);
    for shift in shifts {
        let Some(new) = step(row, place, *shift, value) else {
            return None;
        };
        value = new;
    }
    Some(value)
}

/// The row with another value.
fn with_value(alloc: Global, row: &TableauRow, value: Fraction) -> Result<TableauRow, AllocError>
    requires { 0 < length row.now }
    ensures { IfOk result (λ new. HasValue new row.now value) }
{
    let factors = taken_at(row.kept(), 0).1;
    let mut kept = Vec::with_capacity(alloc, factors.len() + 1)?;
    keep(&mut kept, 0, value)?;
    for cell in factors {
        keep(&mut kept, cell.column, cell.value)?;
    }
    Ok(TableauRow::of(row.size(), kept))
}

/// The rows after all changes, or None where one does not fit.
fn rows_after(
    alloc: Global,
    cells: &[TableauRow],
    shifts: &[Shift],
) -> Result<Option<Vec<TableauRow>>, AllocError>
    requires some { (i : ℕ) → i < length cells.now → 0 < length (row_of cells.now i) }
    requires units { (i : ℕ) → i < length cells.now → All (λ shift. IsUnitWithin (row_of cells.now i) shift) shifts.now }
    ensures size { IfOk result (λ found. IfSome found (λ rows. length rows.items ≡ length cells.now)) }
    ensures rows { IfOk result (λ found. IfSome found (λ rows. (i : ℕ) → i < length cells.now → IsRowShifted i (row_of rows.items i) (row_of cells.now i) shifts.now)) }
    ensures fits { IfOk result (λ found. IfSome found (λ _. ShiftsFit cells.now shifts.now)) }
    ensures none { IfOk result (λ found. IfNone found (ShiftsFit cells.now shifts.now → ⊥)) }
{
    let mut rows = Vec::with_capacity(alloc, cells.len())?;
    for (place, row) in cells.iter().enumerate() {
        let Some(value) = value_after(row, place, shifts) else {
            return Ok(None);
        };
        let new = with_value(alloc, row, value)?;
        rows.push(new)?;
    }
    Ok(Some(rows))
}

/// The same units.
fn copied(alloc: Global, units: &[u32]) -> Result<List<u32>, AllocError>
    requires { length units.now < 2 ^ 32 }
    ensures { IfOk result (λ copy. copy ≡ units.now) }
{
    let mut copy = Vec::with_capacity(alloc, units.len())?;
    for unit in units {
        copy.push(*unit)?;
    }
    Ok(List::from_vec(copy))
}

/// The tableau of another box of the program, with the same units, or None where an operation of the changes does not fit.
pub fn rebound(
    alloc: Global,
    at: &Tableau,
    program: &Program,
    old: &Bounds,
    new: &Bounds,
) -> Result<Option<Tableau>, AllocError>
    requires old_box { IsBoxOf program.now old.now }
    requires new_box { IsBoxOf program.now new.now }
    requires standing { IsStanding (parts_of program.now old.now) at.now }
    ensures standing { IfOk result (λ found. IfSome found (λ moved. IsStanding (parts_of program.now new.now) moved)) }
    ensures units { IfOk result (λ found. IfSome found (λ moved. moved.units ≡ at.now.units)) }
    ensures fits { IfOk result (λ found. IfSome found (λ _. ReboundFits at.now.cells at.now.units (length program.now.rows) old.now new.now)) }
    ensures none { IfOk result (λ found. IfNone found (ReboundFits at.now.cells at.now.units (length program.now.rows) old.now new.now → ⊥)) }
{
    let cells = at.cells.as_slice();
    let units = at.units.as_slice();
    let shifts = shifts_of(alloc, units, program.rows.len(), old, new)?;
    let Some(rows) = rows_after(alloc, cells, shifts.as_slice())? else {
        return Ok(None);
    };
    let units = copied(alloc, units)?;
    let cells = List::from_vec(rows);
    Ok(Some(Tableau { cells, units }))
}
