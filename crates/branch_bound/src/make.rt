//! New leaves.
ghost use Rattle.std.specs.Prelude.{◌≡◌, ◌≤◌, ℕ, IfOk, OnOk, List, Option};
ghost use Rattle.ip_model.specs.Points.{IsBoxOf};
ghost use Rattle.bound_certificate.specs.Bound.{leaf_bound, RowsInRange};
ghost use Rattle.search_tree.specs.Growth.{IsLeafOf};
ghost use Rattle.branch_bound.specs.declared.found.Best.{Best};
ghost use Rattle.branch_bound.specs.Exploring.{IsExplored};
ghost use Rattle.branch_bound.specs.Making.{IsNoLess};
ghost use Rattle.branch_bound.specs.Openings.{HasFullHelpers, Improves, IsBestSince, IsCutOf, IsKept};
ghost use Rattle.branch_bound.specs.Origins.{IsOrigin};

use crate::explore::{Explored, explore};
use crate::found::Best;
use crate::heuristics::{keep_better, offer_explored};
use crate::leaf::{Cut, OpenLeaf};
use crate::origin::Origin;
use bound_certificate::{Multipliers, Node, Sums, bound};
use ip_model::{Bounds, Program};
use ras_table::List;
use std::alloc::{AllocError, Global};

/// A new leaf, and what is known of it where it is not refuted.
#[derive(Debug, Drop)]
pub struct Made {
    pub node: Node,
    pub leaf: Option<OpenLeaf>,
}

/// The same multipliers once more.
fn copied(alloc: Global, y: &Multipliers) -> Result<Multipliers, AllocError>
    ensures den { IfOk result (λ copy. copy.den ≡ y.now.den) }
    ensures tops { IfOk result (λ copy. copy.tops ≡ y.now.tops) }
{
    let tops = y.tops.as_slice().to_vec(alloc)?;
    Ok(Multipliers {
        den: y.den,
        tops: List::from_vec(tops),
    })
}

/// The multipliers of the greater leaf bound in the box, and that bound.
fn better(
    alloc: Global,
    program: &Program,
    bounds: &Bounds,
    own: Multipliers,
    parent: &Multipliers,
) -> Result<(Multipliers, u64), AllocError>
    requires is_box { IsBoxOf program.now bounds.now }
    requires own { RowsInRange program.now own }
    requires parent { RowsInRange program.now parent.now }
    ensures rows { IfOk result (λ best. RowsInRange program.now best.0) }
    ensures bound { IfOk result (λ best. best.1 ≡ leaf_bound program.now bounds.now best.0) }
    ensures own { IfOk result (λ best. leaf_bound program.now bounds.now own ≤ best.1) }
    ensures parent { IfOk result (λ best. leaf_bound program.now bounds.now parent.now ≤ best.1) }
{
    let mut sums = Sums::new(alloc, program.columns.len())?;
    let here = bound(program, bounds, &own, &mut sums);
    let there = bound(program, bounds, parent, &mut sums);
    if here >= there {
        return Ok((own, here));
    }
    Ok((copied(alloc, parent)?, there))
}

/// A leaf that is not refuted.
fn opened(
    alloc: Global,
    program: &Program,
    bounds: &Bounds,
    duals: Multipliers,
    cut: Option<Cut>,
    parent: &Multipliers,
) -> Result<Made, AllocError>
    requires is_box { IsBoxOf program.now bounds.now }
    requires helpers { HasFullHelpers program.now bounds.now }
    requires own { RowsInRange program.now duals }
    requires parent { RowsInRange program.now parent.now }
    ensures leaf { IfOk result (λ made. IsLeafOf program.now bounds.now made.node) }
    ensures parent { IfOk result (λ made. IsNoLess program.now bounds.now parent.now made.leaf) }
    ensures kept { IfOk result (λ made. (best : Option Best) → IsCutOf program.now best bounds.now (leaf_bound program.now bounds.now duals) cut → IsKept program.now best bounds.now made.node made.leaf) }
{
    let (y, bound) = better(alloc, program, bounds, duals, parent)?;
    let leaf = OpenLeaf { bound, cut };
    Ok(Made {
        node: Node::Bound(y),
        leaf: Some(leaf),
    })
}

/// A new leaf with a box in which this was found. It keeps its own multipliers or its parent's, by which bound more. A whole point that
/// was found is kept where it is better than what is known. The only fault is want of memory.
pub fn leaf_of(
    alloc: Global,
    program: &Program,
    bounds: &Bounds,
    explored: Explored,
    parent: &Multipliers,
    best: &mut Option<Best>,
) -> Result<Made, AllocError>
    requires is_box { IsBoxOf program.now bounds.now }
    requires helpers { HasFullHelpers program.now bounds.now }
    requires explored { IsExplored program.now bounds.now explored }
    requires parent { RowsInRange program.now parent.now }
    ensures leaf { IfOk result (λ made. IsLeafOf program.now bounds.now made.node) }
    ensures kept { IfOk result (λ made. IsKept program.now best.new bounds.now made.node made.leaf) }
    ensures parent { IfOk result (λ made. IsNoLess program.now bounds.now parent.now made.leaf) }
    ensures improves { OnOk result (Improves best.old best.new) }
    ensures best { OnOk result ((first : Option (List ℕ)) → IsBestSince program.now first best.old → IsBestSince program.now first best.new) }
{
    match explored {
        Explored::Refuted(y) => Ok(Made {
            node: Node::Refute(y),
            leaf: None,
        }),
        Explored::Solved { best: found, duals } => {
            keep_better(best, found);
            opened(alloc, program, bounds, duals, None, parent)
        }
        Explored::Divided { cut, duals } => {
            opened(alloc, program, bounds, duals, Some(cut), parent)
        }
    }
}

/// A new leaf with this box. A whole point that is found there, or by moves from its relaxation's point, is kept where it is better than
/// what is known. The only fault is want of memory.
pub fn make(
    alloc: Global,
    program: &Program,
    origin: &Origin,
    bounds: &Bounds,
    parent: &Multipliers,
    best: &mut Option<Best>,
) -> Result<Made, AllocError>
    requires is_box { IsBoxOf program.now bounds.now }
    requires helpers { HasFullHelpers program.now bounds.now }
    requires origin { IsOrigin program.now origin.now }
    requires parent { RowsInRange program.now parent.now }
    ensures leaf { IfOk result (λ made. IsLeafOf program.now bounds.now made.node) }
    ensures kept { IfOk result (λ made. IsKept program.now best.new bounds.now made.node made.leaf) }
    ensures parent { IfOk result (λ made. IsNoLess program.now bounds.now parent.now made.leaf) }
    ensures improves { OnOk result (Improves best.old best.new) }
    ensures best { OnOk result ((first : Option (List ℕ)) → IsBestSince program.now first best.old → IsBestSince program.now first best.new) }
{
    let explored = explore(alloc, program, origin, bounds)?;
    offer_explored(alloc, program, &origin.layout, &explored, false, best)?;
    leaf_of(alloc, program, bounds, explored, parent, best)
}
