//! The two leaves that a split makes.
ghost use Rattle.std.specs.Prelude.{ℕ, IfOk, OnOk, List, Option};
ghost use Rattle.ip_model.specs.Points.{IsBoxOf};
ghost use Rattle.bound_certificate.specs.Bound.{RowsInRange};
ghost use Rattle.bound_certificate.specs.Trees.{high_side, low_side};
ghost use Rattle.branch_bound.specs.Making.{IsMade};
ghost use Rattle.branch_bound.specs.Openings.{CanCut, HasFullHelpers, Improves, IsBestSince};
ghost use Rattle.branch_bound.specs.Origins.{IsOrigin};

use crate::found::Best;
use crate::leaf::Cut;
use crate::make::{Made, make};
use crate::origin::Origin;
use crate::sides::{high_side, low_side};
use bound_certificate::Multipliers;
use ip_model::{Bounds, Program};
use std::alloc::{AllocError, Global};

/// The leaves of the low and the high side of a split.
pub fn children(
    alloc: Global,
    program: &Program,
    origin: &Origin,
    bounds: &Bounds,
    cut: &Cut,
    parent: &Multipliers,
    best: &mut Option<Best>,
) -> Result<(Made, Made), AllocError>
    requires is_box { IsBoxOf program.now bounds.now }
    requires helpers { HasFullHelpers program.now bounds.now }
    requires origin { IsOrigin program.now origin.now }
    requires cut { CanCut program.now bounds.now cut.now }
    requires parent { RowsInRange program.now parent.now }
    ensures low { IfOk result (λ made. IsMade program.now best.new (low_side bounds.now cut.now.column cut.now.at) parent.now made.0) }
    ensures high { IfOk result (λ made. IsMade program.now best.new (high_side bounds.now cut.now.column cut.now.at) parent.now made.1) }
    ensures improves { OnOk result (Improves best.old best.new) }
    ensures best { OnOk result ((first : Option (List ℕ)) → IsBestSince program.now first best.old → IsBestSince program.now first best.new) }
{
    let below = low_side(alloc, bounds, cut.column, cut.at)?;
    let above = high_side(alloc, bounds, cut.column, cut.at)?;
    let low = make(alloc, program, origin, &below, parent, best)?;
    let high = make(alloc, program, origin, &above, parent, best)?;
    Ok((low, high))
}
