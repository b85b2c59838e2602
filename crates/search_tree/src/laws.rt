//! Laws of splits, each as the contract of a function that does nothing.
ghost use Rattle.std.specs.Prelude.{◌≡◌, ◌+◌, ◌<◌, ◌≤◌, false, length, slice_index};
ghost use Rattle.ip_model.specs.Limits.{helper_at};
ghost use Rattle.ip_model.specs.Points.{IsBoxOf};
ghost use Rattle.bound_certificate.specs.Bound.{leaf_bound};
ghost use Rattle.bound_certificate.specs.Trees.{low_side, high_side};
ghost use Rattle.search_tree.specs.Ways.{ways};

use bound_certificate::Multipliers;
use ip_model::{Bounds, Program};

#[tactic(auto, using(crate::proofs::Nested::low_side_bound, crate::proofs::Nested::high_side_bound))]
/// The same multipliers bound both sides of a split at least as well as its box.
pub fn sides_bound_no_less(
    program: &Program,
    bounds: &Bounds,
    column: u32,
    at: u32,
    y: &Multipliers,
)
    requires is_box { IsBoxOf program.now bounds.now }
    requires above { slice_index bounds.now.low column ≤ at }
    requires below { at < slice_index bounds.now.high column }
    ensures low { leaf_bound program.now bounds.now y.now ≤ leaf_bound program.now (low_side bounds.now column at) y.now }
    ensures high { leaf_bound program.now bounds.now y.now ≤ leaf_bound program.now (high_side bounds.now column at) y.now }
{}

#[tactic(auto, using(crate::proofs::WayFacts::ways_parted))]
/// A split in a count column parts the ways to set the count columns.
pub fn sides_part_ways(program: &Program, bounds: &Bounds, column: u32, at: u32)
    requires is_box { IsBoxOf program.now bounds.now }
    requires there { column < length program.now.columns }
    requires count { helper_at program.now.columns column ≡ false }
    requires above { slice_index bounds.now.low column ≤ at }
    requires below { at < slice_index bounds.now.high column }
    ensures { ways program.now (low_side bounds.now column at) + ways program.now (high_side bounds.now column at) ≡ ways program.now bounds.now }
{}
