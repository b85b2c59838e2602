//! Rows of a tableau, which keep the cells that are not 0.
ghost use Rattle.std.specs.Prelude.{◌≡◌, ◌≢◌, ℕ, ◌<◌, ◌≤◌, ◌^◌, pos, length};
ghost use Rattle.exact_simplex.specs.Cells.{cell_of, no_fraction};
ghost use Rattle.exact_simplex.specs.Kept.{AreKept, IsFirstFrom, IsRising, all_cells, value_of};

use exact_fraction::Fraction;
use ras_table::List;
use std::marker::Model;

/// A cell of a row that is not 0.
#[derive(Clone, Copy)]
pub struct Kept {
    /// Its column: 0 for the value of the row, and k + 1 for its factor of unit k.
    pub column: u32,
    /// What stands there.
    pub value: Fraction,
}

/// The cells of a row, of which it keeps those that are not 0, by rising column.
#[derive(Drop)]
pub struct TableauRow {
    size: u32,
    kept: List<Kept>,
}

impl Model for TableauRow {
    ghost use Rattle.std.specs.Prelude.{List, ◌<◌, ◌^◌};
    ghost use Rattle.exact_fraction.specs.declared.fraction.Fraction.{Fraction};
    ghost use Rattle.exact_simplex.specs.Kept.{AreKept, all_cells};

    ghost Value = { List Fraction };

    ghost view = { λ row. all_cells row.size row.kept };

    ghost invariant = { λ row. AreKept row.size row.kept };
}

/// The number 0.
pub fn nothing() -> Fraction
    ensures { result ≡ no_fraction }
{
    Fraction { num: 0, den: 1 }
}

impl TableauRow {
    /// The row of so many columns that keeps these cells.
    pub fn of(size: u32, kept: Vec<Kept>) -> TableauRow
        requires { AreKept size kept.items }
        ensures { result ≡ all_cells size kept.items }
    {
        TableauRow {
            size,
            kept: List::from_vec(kept),
        }
    }

    /// How many columns there are.
    pub fn size(&self) -> u32
        ensures { result ≡ length self.now }
    {
        self.size
    }

    /// The cells that are not 0, by rising column.
    pub fn kept(&self) -> &[Kept]
        ensures kept { AreKept (length self.now) result.now }
        ensures values { (c : ℕ) → value_of result.now c ≡ cell_of self.now c }
        ensures few { length result.now < 2 ^ 32 }
    {
        self.kept.as_slice()
    }

    /// The list of these cells.
    pub fn kept_list(&self) -> &List<Kept>
        ensures kept { AreKept (length self.now) result.now }
        ensures values { (c : ℕ) → value_of result.now c ≡ cell_of self.now c }
    {
        &self.kept
    }

    /// The cell in a column.
    pub fn cell(&self, column: usize) -> Fraction
        requires { column < length self.now }
        ensures { result ≡ cell_of self.now column }
    {
        let kept = self.kept.as_slice();
        match kept.get(first_from(kept, column)) {
            Some(cell) if cell.column as usize == column => cell.value,
            _ => nothing(),
        }
    }
}

/// How many cells lie before a column, found by halving.
fn first_from(kept: &[Kept], column: usize) -> usize
    requires { IsRising 0 kept.now }
    ensures { IsFirstFrom column kept.now result }
{
    let mut low = 0;
    let mut high = kept.len();
    while low < high {
        let middle = low + (high - low) / 2;
        if (kept[middle].column as usize) < column {
            low = middle + 1;
        } else {
            high = middle;
        }
    }
    low
}
