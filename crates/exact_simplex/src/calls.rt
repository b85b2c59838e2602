//! The calls of a tableau.
ghost use Rattle.std.specs.Prelude.{◌≡◌, ℕ, ◌+◌, ◌-◌, ◌<◌, ◌≤◌, ◌<ℤ◌, suc, pos, true, false, length, slice_index, IfOk};
ghost use Rattle.exact_simplex.specs.Cells.{cell_of, row_of, Shows};
ghost use Rattle.exact_simplex.specs.Kept.{AreKept, value_of};
ghost use Rattle.exact_simplex.specs.Pivots.{PivotFits};
ghost use Rattle.exact_simplex.specs.Tableaus.{Scaled, pivot_of};

use crate::rows::{pivot_changes, put_rows};
use crate::table::Tableau;
use crate::tableau_row::Kept;
use exact_fraction::Fraction;
use ras_table::List;
use std::alloc::{AllocError, Global};

impl Tableau {
    /// How many rows there are: for a program of n columns and m rows `2n + m + 1`.
    pub fn rows(&self) -> u32
        ensures { result ≡ length self.now.cells }
    {
        self.cells.len()
    }

    /// How many columns there are: for a program of n columns `n + 1`.
    pub fn columns(&self) -> u32
        ensures { result ≡ suc (length self.now.units) }
    {
        self.units.len() + 1
    }

    /// The cell in a row and a column.
    pub fn cell(&self, row: u32, column: u32) -> Fraction
        requires row { row < length self.now.cells }
        requires column { column ≤ length self.now.units }
        ensures { result ≡ cell_of (row_of self.now.cells row) column }
    {
        self.cells.as_slice()[row as usize].cell(column as usize)
    }

    /// The cells that a row keeps, by rising column: no value among them is 0, and the row has 0 in each column that is not among them.
    pub fn kept(&self, row: u32) -> &List<Kept>
        requires { row < length self.now.cells }
        ensures kept { AreKept (suc (length self.now.units)) result.now }
        ensures values { (c : ℕ) → value_of result.now c ≡ cell_of (row_of self.now.cells row) c }
    {
        self.cells.as_slice()[row as usize].kept_list()
    }

    /// The row that is the unit of a column from 1 on.
    pub fn unit(&self, column: u32) -> u32
        requires first { 1 ≤ column }
        requires column { column ≤ length self.now.units }
        ensures unit { result ≡ slice_index self.now.units (column - 1) }
        ensures row { result < length self.now.cells }
    {
        self.units.as_slice()[column as usize - 1]
    }

    /// Makes the written pivot at a row and the column of a unit, or answers false and stays as it was where the pivot does not fit.
    pub(crate) fn pivot(&mut self, alloc: Global, row: u32, unit: u32) -> Result<bool, AllocError>
        requires row { row < length self.old.cells }
        requires unit { unit < length self.old.units }
        requires pivot { pos 0 <ℤ (cell_of (row_of self.old.cells row) (suc unit)).num }
        ensures rows { length self.new.cells ≡ length self.old.cells }
        ensures units { length self.new.units ≡ length self.old.units }
        ensures made { IfOk result (λ made. made ≡ true → (n : ℕ) (t : Scaled) → 1 ≤ t.scale → pos 0 <ℤ t.factor row unit → Shows n self.old.cells self.old.units t → Shows n self.new.cells self.new.units (pivot_of t row unit)) }
        ensures fits { IfOk result (λ made. made ≡ true → PivotFits self.old.cells row (suc unit)) }
        ensures kept { IfOk result (λ made. made ≡ false → self.new ≡ self.old) }
        ensures none { IfOk result (λ made. made ≡ false → PivotFits self.old.cells row (suc unit) → ⊥) }
    {
        let found = pivot_changes(
            alloc,
            self.cells.as_slice(),
            row as usize,
            unit as usize + 1,
        )?;
        let Some(changes) = found else {
            return Ok(false);
        };
        put_rows(&mut self.cells, changes);
        self.units.set(unit, row);
        Ok(true)
    }
}
