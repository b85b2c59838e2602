//! Count columns in which a box can be split.
ghost use Rattle.std.specs.Prelude.{◌≡◌, ℕ, ◌<◌, ◌≤◌, not, false, IfNone, IfSome, IsTrue, length, slice_index};
ghost use Rattle.ip_model.specs.Limits.{helper_at};
ghost use Rattle.ip_model.specs.Points.{IsBoxOf};
ghost use Rattle.branch_bound.specs.Columns.{IsFractional, IsWideColumn};

use ip_model::{Bounds, Mark, Point, Program};

/// Whether a column counts servers.
pub(crate) fn is_count(program: &Program, column: u32) -> bool
    requires { column < length program.now.columns }
    ensures { result ≡ not (helper_at program.now.columns column) }
{
    let marked = &program.columns.as_slice()[column as usize];
    matches!(marked.mark, Mark::Count { .. })
}

/// Whether a column is a count column that is not fixed in the box.
fn is_wide(program: &Program, bounds: &Bounds, column: u32) -> bool
    requires is_box { IsBoxOf program.now bounds.now }
    requires there { column < length program.now.columns }
    ensures wide { IsTrue result → IsWideColumn program.now bounds.now column }
    ensures fixed { result ≡ false → helper_at program.now.columns column ≡ false → slice_index bounds.now.low column ≡ slice_index bounds.now.high column }
{
    if !is_count(program, column) {
        return false;
    }
    bounds.low.as_slice()[column as usize] < bounds.high.as_slice()[column as usize]
}

/// The first count column that is not fixed in the box.
pub fn wide_column(program: &Program, bounds: &Bounds) -> Option<u32>
    requires { IsBoxOf program.now bounds.now }
    ensures some { IfSome result (λ column. IsWideColumn program.now bounds.now column) }
    ensures none { IfNone result ((j : ℕ) → j < length program.now.columns → helper_at program.now.columns j ≡ false → slice_index bounds.now.low j ≡ slice_index bounds.now.high j) }
{
    for column in 0..program.columns.len() {
        if is_wide(program, bounds, column) {
            return Some(column);
        }
    }
    None
}

/// Whether a column is a count column in which the point is between two whole numbers.
pub(crate) fn is_fractional(program: &Program, point: &Point, column: u32) -> bool
    requires size { length point.now.part ≡ length program.now.columns }
    requires there { column < length program.now.columns }
    ensures between { IsTrue result → IsFractional program.now point.now column }
    ensures whole { result ≡ false → helper_at program.now.columns column ≡ false → slice_index point.now.part column ≡ 0 }
{
    if !is_count(program, column) {
        return false;
    }
    point.part.as_slice()[column as usize] > 0
}
