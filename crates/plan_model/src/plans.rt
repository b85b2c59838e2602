ghost use Rattle.std.specs.Prelude.{◌≡◌, IfOk};
ghost use Rattle.plan_model.specs.Units.{free_plan};

use crate::cases::{Assignment, Case};
use ras_table::List;
use std::alloc::{AllocError, Global};

/// The assignment that gives none to every server.
pub fn free_plan(alloc: Global, case: &Case) -> Result<Assignment, AllocError>
    ensures { IfOk result (λ a. a ≡ free_plan case.now) }
{
    let of = vec![in alloc; None; case.places.len() as usize]?;
    Ok(Assignment {
        of: List::from_vec(of),
    })
}
