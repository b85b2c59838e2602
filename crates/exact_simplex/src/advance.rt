//! One step of the written method.
ghost use Rattle.std.specs.Prelude.{◌≡◌, ℕ, ◌<◌, ◌≤◌, suc, Some, length, IfOk};
ghost use Rattle.exact_simplex.specs.Cells.{row_of};
ghost use Rattle.exact_simplex.specs.Choices.{FirstCandidate};
ghost use Rattle.exact_simplex.specs.Forms.{Parts};
ghost use Rattle.exact_simplex.specs.Relaxing.{AdvanceGives, FirstBelow, IsFirstBelow, IsReached, IsState};
ghost use Rattle.exact_simplex.specs.Tableaus.{Scaled};

use crate::merge::taken_at;
use crate::numbers::is_below_none;
use crate::picks::{choose, first_candidate};
use crate::state::{Advance, State};
use crate::table::Tableau;
use crate::tableau_row::TableauRow;
use std::alloc::{AllocError, Global};

/// The first row from 1 on with a value below 0.
fn first_below(cells: &[TableauRow], rows: u32) -> Option<u32>
    requires rows { rows ≡ length cells.now }
    requires sizes { (i : ℕ) → i < length cells.now → 0 < length (row_of cells.now i) }
    ensures { FirstBelow result cells.now }
{
    for i in 1..rows {
        if is_below_none(taken_at(cells[i as usize].kept(), 0).0) {
            return Some(i);
        }
    }
    None
}

impl Tableau {
    /// Where the tableau stands.
    pub(crate) fn state(&self) -> State
        ensures { IsState result self.now.cells (length self.now.units) }
    {
        let cells = self.cells.as_slice();
        let Some(row) = first_below(cells, self.cells.len()) else {
            return State::Least;
        };
        match first_candidate(cells, row as usize, self.units.len()) {
            None => State::Empty { row },
            Some(first) => State::Open { row, first },
        }
    }

    /// Makes the written pivot at a row.
    pub(crate) fn advance(
        &mut self,
        alloc: Global,
        row: u32,
        first: u32,
    ) -> Result<Advance, AllocError>
        requires row { IsFirstBelow self.old.cells row }
        requires first { FirstCandidate (Some first) self.old.cells row (length self.old.units) }
        ensures { IfOk result (λ found. (p : Parts) (from : Scaled) (made : ℕ) (t : Scaled) → IsReached p from made self.old t → AdvanceGives found p from made self.old self.new row t) }
    {
        let units = self.units.len();
        let chosen = choose(self.cells.as_slice(), row as usize, first, units);
        let Some(unit) = chosen else {
            return Ok(Advance::Wide { column: None });
        };
        let made = self.pivot(alloc, row, unit)?;
        if made {
            Ok(Advance::Made { unit })
        } else {
            Ok(Advance::Wide {
                column: Some(unit + 1),
            })
        }
    }
}
