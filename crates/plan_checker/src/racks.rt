//! What follows the part of the region.
ghost use Rattle.std.specs.Prelude.{◌≤◌, IfErr, IfOk, IsTrue, ◌≡◌};
ghost use Rattle.plan_model.specs.Allowed.{region_allowed};
ghost use Rattle.plan_model.specs.Costs.{region_cost};
ghost use Rattle.plan_model.specs.declared.cases.Grouping.TheVariants.{Class};
ghost use Rattle.program_rows.specs.Settings.{region_setting};
ghost use Rattle.program_rows.specs.declared.fault.SizeFault.TheVariants.{Memory};
ghost use Rattle.plan_checker.specs.Solved.{IsSolved};
ghost use Rattle.first_plans.specs.FirstPlan.{first_plan_of};
ghost use Rattle.plan_checker.specs.Racks.{Follows, FollowsPlan};

use crate::planner::Planner;
use plan_document::{Answer, Part, RackPart};
use plan_model::{Assignment, Case};
use program_rows::{SizeFault, choose};
use std::alloc::Global;

/// The answer of the document after a region's assignment that closes the wanted gap, and the rack part, where
/// reservations are chosen.
fn after_plan<P: Planner>(
    alloc: Global,
    case: &Case,
    first: &Assignment,
    gap: u64,
    nodes: u32,
    racks: u32,
    planner: &mut P,
) -> Result<(Answer, Option<RackPart>), SizeFault>
    requires allowed { IsTrue (region_allowed case.now first.now) }
    requires gap { gap ≤ 1000000000000 }
    requires some { 1 ≤ nodes }
    requires few { nodes ≤ 20000 }
    ensures follows { IfOk result (λ r. FollowsPlan case.now first.now gap nodes racks r.0 r.1) }
    ensures fault { IfErr result (λ fault. fault ≡ Memory) }
{
    let chosen = choose(alloc, case, first, racks)?;
    if chosen.is_empty() {
        return Ok((Answer::Plan, None));
    }
    let (answer, part) = planner.second(alloc, case, first, &chosen, gap, nodes)?;
    Ok((answer, Some(RackPart { chosen, part })))
}

/// The answer of the document after a region part with this answer, and the rack part. There is none where the region's
/// answer is no plan.
pub(crate) fn after_region<P: Planner>(
    alloc: Global,
    case: &Case,
    answer: Answer,
    part: &Part,
    gap: u64,
    nodes: u32,
    racks: u32,
    planner: &mut P,
) -> Result<(Answer, Option<RackPart>), SizeFault>
    requires solved { IsSolved case.now (region_setting case.now) Class (region_allowed case.now) (region_cost case.now) gap nodes (first_plan_of case.now) answer part.now }
    requires gap { gap ≤ 1000000000000 }
    requires some { 1 ≤ nodes }
    requires few { nodes ≤ 20000 }
    ensures follows { IfOk result (λ r. Follows case.now gap nodes racks answer part.now.plan r.0 r.1) }
    ensures fault { IfErr result (λ fault. fault ≡ Memory) }
{
    match (answer, &part.plan) {
        (Answer::Plan, Some(plan)) => after_plan(alloc, case, &plan.of, gap, nodes, racks, planner),
        _ => Ok((answer, None)),
    }
}
