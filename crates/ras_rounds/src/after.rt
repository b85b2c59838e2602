ghost use Rattle.std.specs.Prelude.{◌≡◌, IfOk, length};
ghost use Rattle.ras_rounds.specs.Rounds.{IsAfter};

use crate::places::places_after;
use online_mover::Mover;
use plan_model::{Case, copy_case};
use std::alloc::{AllocError, Global};

/// The case after a round: each server has the holder that the mover left it with, and is up as the mover has it.
///
/// # Errors
/// For want of memory.
pub fn case_after(alloc: Global, case: &Case, mover: &Mover) -> Result<Case, AllocError>
    requires servers { length mover.now.servers ≡ length case.now.places }
    requires reservations { length mover.now.case.wants ≡ length case.now.wants }
    ensures { IfOk result (λ after. IsAfter case.now mover.now after) }
{
    mover.keeps_rule();
    let copy = copy_case(alloc, case)?;
    Ok(Case {
        places: places_after(alloc, case, mover)?,
        kinds: copy.kinds,
        racks: copy.racks,
        boards: copy.boards,
        centers: copy.centers,
        moves: copy.moves,
        wants: copy.wants,
    })
}
