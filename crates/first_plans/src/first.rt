//! The first plan.
ghost use Rattle.std.specs.Prelude.{◌≡◌, IfOk, IfSome, IsTrue};
ghost use Rattle.plan_model.specs.Allowed.{region_allowed};
ghost use Rattle.first_plans.specs.FirstPlan.{first_plan_of};

use crate::filling::fill;
use crate::kept::kept_plan;
use plan_model::{Assignment, Case};
use std::alloc::{AllocError, Global};

/// The first plan of a region, if there is one. It begins with each up server kept by the reservation that holds it, where
/// it is worth something to it, and none elsewhere. Then for each reservation in file order: while it does not keep its
/// need, it takes one of the up servers that have none and are worth something to it. With protection datacenter this is one
/// of the datacenter that has the fewest of its units, and among these one of the switchboard that has the fewest; with
/// protection switchboard it is one of the switchboard that has the fewest. Among these, and with protection none among all,
/// it is one of the greatest value, then the first in the file. There is no first plan where no such server is left. One pass
/// over the servers for each server that is taken and for each reservation.
///
/// # Errors
/// For want of memory.
pub fn first_plan(alloc: Global, case: &Case) -> Result<Option<Assignment>, AllocError>
    ensures plan { IfOk result (λ found. found ≡ first_plan_of case.now) }
    ensures allowed { IfOk result (λ found. IfSome found (λ a. IsTrue (region_allowed case.now a))) }
{
    let mut a = kept_plan(alloc, case)?;
    for r in 0..case.wants.len() {
        if !fill(case, r, &mut a) {
            return Ok(None);
        }
    }
    Ok(Some(a))
}
