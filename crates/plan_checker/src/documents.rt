//! The verdict on a document.
ghost use Rattle.std.specs.Prelude.{◌≡◌, ◌↔◌, All, IfOk, IfSome, IsTrue, None, Ok, Some, length, true};
ghost use Rattle.std.specs.Option.{is_none};
ghost use Rattle.plan_model.specs.Allowed.{fits, region_allowed};
ghost use Rattle.plan_model.specs.Chosen.{AreChosen};
ghost use Rattle.program_rows.specs.Accepted.{phase_program};
ghost use Rattle.program_rows.specs.Settings.{rack_setting, region_setting, setting_of};
ghost use Rattle.plan_checker.specs.declared.verdict.Verdict.TheVariants.{Yes};
ghost use Rattle.plan_checker.specs.Accepted.{IsAccepted};
ghost use Rattle.plan_checker.specs.Headline.{KeepsPromises};
ghost use Rattle.plan_checker.specs.Shape.{HasShape, PartInRange, PlanInRange, RackInRange};
ghost use Rattle.plan_checker.specs.Reasons.{region_plan_reason, region_reason, rack_plan_reason, rack_part_reason, chosen_first, region_last_reason, rack_last_reason, later_reason, parts_reason, first_reason, verdict_of, HasSoundTree};

use crate::budgets::spent_reason;
use crate::certificates::certificate_reason;
use crate::chosen::chosen_first;
use crate::fixed::fixed_reason;
use crate::plans::{allowed_reason, value_reason};
use crate::protections::protection_reason;
use crate::verdict::{PhaseName, Reason, Verdict};
use plan_document::{Answer, Document, Planned, RackPart};
use plan_model::{Assignment, Case, rack_cost, region_cost};
use program_rows::Phase;
use ras_table::List;
use std::alloc::{AllocError, Global};

/// What is wrong with the plan of the region part.
fn region_plan_reason(case: &Case, plan: &Option<Planned>) -> Option<Reason>
    requires { IfSome plan.now (PlanInRange case.now) }
    ensures { result ≡ region_plan_reason case.now plan.now }
{
    let Some(plan) = plan else {
        return None;
    };
    if let Some(reason) = allowed_reason(PhaseName::Region, case, &plan.of) {
        return Some(reason);
    }
    value_reason(PhaseName::Region, plan.value, region_cost(case, &plan.of))
}

/// What is wrong with the region part.
fn region_reason(
    alloc: Global,
    case: &Case,
    document: &Document,
) -> Result<Option<Reason>, AllocError>
    requires { PartInRange case.now document.now.region }
    ensures { IfOk result (λ reason. reason ≡ region_reason case.now document.now) }
{
    if let Some(reason) = region_plan_reason(case, &document.region.plan) {
        return Ok(Some(reason));
    }
    certificate_reason(
        alloc,
        PhaseName::Region,
        case,
        &Phase::Region,
        document,
        document.rack.is_none(),
        &document.region,
    )
}

/// What is wrong with the plan of the rack part.
fn rack_plan_reason(
    case: &Case,
    region: &Assignment,
    chosen: &List<u32>,
    plan: &Option<Planned>,
) -> Option<Reason>
    requires region { IsTrue (fits case.now region.now) }
    requires chosen { AreChosen case.now chosen.now }
    requires plan { IfSome plan.now (PlanInRange case.now) }
    ensures { result ≡ rack_plan_reason case.now region.now chosen.now plan.now }
{
    let Some(plan) = plan else {
        return None;
    };
    if let Some(reason) = fixed_reason(case, region, chosen, &plan.of) {
        return Some(reason);
    }
    if let Some(reason) = allowed_reason(PhaseName::Rack, case, &plan.of) {
        return Some(reason);
    }
    value_reason(
        PhaseName::Rack,
        plan.value,
        rack_cost(case, &plan.of, chosen),
    )
}

/// What is wrong with the rack part.
fn rack_part_reason(
    alloc: Global,
    case: &Case,
    document: &Document,
    region: &Assignment,
    rack: &RackPart,
) -> Result<Option<Reason>, AllocError>
    requires region { IsTrue (fits case.now region.now) }
    requires chosen { AreChosen case.now rack.now.chosen }
    requires rack { PartInRange case.now rack.now.part }
    ensures { IfOk result (λ reason. reason ≡ rack_part_reason case.now document.now region.now rack.now) }
{
    if let Some(reason) = rack_plan_reason(case, region, &rack.chosen, &rack.part.plan) {
        return Ok(Some(reason));
    }
    let phase = Phase::Rack {
        from: region,
        chosen: &rack.chosen,
    };
    certificate_reason(
        alloc,
        PhaseName::Rack,
        case,
        &phase,
        document,
        true,
        &rack.part,
    )
}

/// Why the budget of a limit document whose last part is the region part is not spent.
fn region_last_reason(
    alloc: Global,
    case: &Case,
    document: &Document,
) -> Result<Option<Reason>, AllocError>
    requires { HasSoundTree (phase_program case.now (region_setting case.now) document.now.grouping) document.now.region.tree.nodes }
    ensures { IfOk result (λ reason. reason ≡ region_last_reason case.now document.now) }
{
    match document.answer {
        Answer::Limit => {
            spent_reason(
                alloc,
                PhaseName::Region,
                case,
                &Phase::Region,
                document,
                &document.region,
            )
        }
        _ => Ok(None),
    }
}

/// Why the budget of a limit document whose last part is this rack part is not spent.
fn rack_last_reason(
    alloc: Global,
    case: &Case,
    document: &Document,
    region: &Assignment,
    rack: &RackPart,
) -> Result<Option<Reason>, AllocError>
    requires region { IsTrue (fits case.now region.now) }
    requires sound { HasSoundTree (phase_program case.now (rack_setting case.now region.now rack.now.chosen) document.now.grouping) rack.now.part.tree.nodes }
    ensures { IfOk result (λ reason. reason ≡ rack_last_reason case.now document.now region.now rack.now) }
{
    let phase = Phase::Rack {
        from: region,
        chosen: &rack.chosen,
    };
    match document.answer {
        Answer::Limit => {
            spent_reason(alloc, PhaseName::Rack, case, &phase, document, &rack.part)
        }
        _ => Ok(None),
    }
}

/// What is wrong with what follows the chosen reservations.
fn later_reason(
    alloc: Global,
    case: &Case,
    document: &Document,
) -> Result<Option<Reason>, AllocError>
    requires shape { HasShape case.now document.now }
    requires region { region_reason case.now document.now ≡ None }
    requires chosen { chosen_first case.now document.now document.now.answer ≡ None }
    ensures { IfOk result (λ reason. reason ≡ later_reason case.now document.now document.now.rack document.now.region.plan) }
{
    let Some(rack) = &document.rack else {
        return region_last_reason(alloc, case, document);
    };
    let Some(first) = &document.region.plan else {
        return Ok(None);
    };
    if let Some(reason) = rack_part_reason(alloc, case, document, &first.of, rack)? {
        return Ok(Some(reason));
    }
    rack_last_reason(alloc, case, document, &first.of, rack)
}

/// What is wrong with the parts, the first of it.
fn parts_reason(
    alloc: Global,
    case: &Case,
    document: &Document,
) -> Result<Option<Reason>, AllocError>
    requires { HasShape case.now document.now }
    ensures { IfOk result (λ reason. reason ≡ parts_reason case.now document.now) }
{
    if let Some(reason) = region_reason(alloc, case, document)? {
        return Ok(Some(reason));
    }
    if let Some(reason) = chosen_first(alloc, case, document)? {
        return Ok(Some(reason));
    }
    later_reason(alloc, case, document)
}

/// The first reason why a document is not accepted.
fn first_reason(
    alloc: Global,
    case: &Case,
    document: &Document,
) -> Result<Option<Reason>, AllocError>
    requires { HasShape case.now document.now }
    ensures { IfOk result (λ reason. reason ≡ first_reason case.now document.now) }
{
    if let Some(reason) = protection_reason(case, document) {
        return Ok(Some(reason));
    }
    parts_reason(alloc, case, document)
}

/// The verdict on a document: `No` exactly with the first reason that holds, and `Yes` exactly where none holds, which is
/// exactly where the document is accepted.
///
/// Where it is `Yes`, each plan of the document binds each server to at most one reservation that it may serve, each
/// reservation keeps its requested units, also after any one loss that its stated protection names, and the stated value
/// is the cost and exceeds the cost of no allowed assignment by more than the stated gap. Where the document says that there is no plan, no
/// assignment is allowed. The only fault is want of memory.
pub fn check(alloc: Global, case: &Case, document: &Document) -> Result<Verdict, AllocError>
    requires { HasShape case.now document.now }
    ensures verdict { IfOk result (λ verdict. verdict ≡ verdict_of (first_reason case.now document.now)) }
    ensures accepted { IfOk result (λ verdict. (verdict ≡ Yes) ↔ IsAccepted case.now document.now) }
    ensures promises { result ≡ Ok Yes → KeepsPromises case.now document.now }
{
    match first_reason(alloc, case, document)? {
        Some(reason) => Ok(Verdict::No(reason)),
        None => Ok(Verdict::Yes),
    }
}
