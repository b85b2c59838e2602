ghost use Rattle.std.specs.Prelude.{◌≡◌, option_map};
ghost use Rattle.plan_checker.specs.Target.{planned_of, target_of};

use plan_document::{Document, Planned};
use plan_model::Assignment;

// The assignment of a plan.
fn planned_of(plan: &Option<Planned>) -> Option<&Assignment>
    ensures { option_map (λ a. a.now) result ≡ planned_of plan.now }
{
    match plan {
        Some(plan) => Some(&plan.of),
        None => None,
    }
}

/// Where the servers are to be: as the racks' part of the document says, or else the region's. In the case that an accepted
/// document is of, this assignment is allowed.
pub fn target_of(document: &Document) -> Option<&Assignment>
    ensures { option_map (λ a. a.now) result ≡ target_of document.now }
{
    let of_racks = match &document.rack {
        Some(rack) => planned_of(&rack.part.plan),
        None => None,
    };
    match of_racks {
        Some(target) => Some(target),
        None => planned_of(&document.region.plan),
    }
}
