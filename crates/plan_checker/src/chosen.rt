//! Whether the stated list of chosen reservations is the chosen list.
ghost use Rattle.std.specs.Prelude.{◌≡◌, IfOk, IfSome, IsTrue};
ghost use Rattle.plan_model.specs.Allowed.{region_allowed};
ghost use Rattle.plan_checker.specs.Reasons.{right_chosen, chosen_difference, chosen_reason, chosen_first};

use crate::lists::first_difference;
use crate::verdict::Reason;
use plan_document::{Answer, Document, RackPart};
use plan_model::Case;
use program_rows::choose;
use ras_table::List;
use std::alloc::{AllocError, Global};

/// The chosen list: empty where the region part has no plan, or its gap is above the wanted gap.
fn right_chosen(alloc: Global, case: &Case, document: &Document) -> Result<List<u32>, AllocError>
    requires { IfSome document.now.region.plan (λ plan. IsTrue (region_allowed case.now plan.of)) }
    ensures { IfOk result (λ list. list ≡ right_chosen case.now document.now) }
{
    if let Some(plan) = &document.region.plan {
        if plan.gap <= document.gap {
            return choose(alloc, case, &plan.of, document.racks);
        }
    }
    List::new(alloc, 0)
}

/// The first place at which the stated list, empty where there is no rack part, differs from another.
fn chosen_difference(rack: &Option<RackPart>, right: &List<u32>) -> Option<u32>
    ensures { result ≡ chosen_difference rack.now right.now }
{
    match rack {
        Some(rack) => first_difference(&rack.chosen, right),
        None => if right.len() == 0 { None } else { Some(0) },
    }
}

/// Where the stated list of chosen reservations is not the chosen list.
fn chosen_reason(
    alloc: Global,
    case: &Case,
    document: &Document,
) -> Result<Option<Reason>, AllocError>
    requires { IfSome document.now.region.plan (λ plan. IsTrue (region_allowed case.now plan.of)) }
    ensures { IfOk result (λ reason. reason ≡ chosen_reason case.now document.now) }
{
    let right = right_chosen(alloc, case, document)?;
    match chosen_difference(&document.rack, &right) {
        Some(place) => Ok(Some(Reason::Chosen { place })),
        None => Ok(None),
    }
}

/// The same where the answer is not that there is no plan.
pub fn chosen_first(
    alloc: Global,
    case: &Case,
    document: &Document,
) -> Result<Option<Reason>, AllocError>
    requires { IfSome document.now.region.plan (λ plan. IsTrue (region_allowed case.now plan.of)) }
    ensures { IfOk result (λ reason. reason ≡ chosen_first case.now document.now document.now.answer) }
{
    match document.answer {
        Answer::Infeasible => Ok(None),
        _ => chosen_reason(alloc, case, document),
    }
}
