//! The phase of the region.
ghost use Rattle.std.specs.Prelude.{◌≡◌, ◌≤◌, IfErr, IfOk};
ghost use Rattle.plan_model.specs.declared.cases.Grouping.{Grouping};
ghost use Rattle.plan_model.specs.Allowed.{region_allowed};
ghost use Rattle.plan_model.specs.Costs.{region_cost};
ghost use Rattle.program_rows.specs.Settings.{phase_classes as phase_classes_of, region_setting};
ghost use Rattle.program_rows.specs.Sizes.{IsFault, size_fault_of};
ghost use Rattle.first_plans.specs.FirstPlan.{first_plan_of};
ghost use Rattle.plan_checker.specs.Solved.{IsSolved};

use first_plans::first_plan;
use phase_search::solve;
use plan_checker::phase_classes;
use plan_document::{Answer, Part};
use plan_model::{Case, Grouping};
use program_rows::{Phase, SizeFault};
use std::alloc::Global;
use symmetry_classes::Classes;

/// Solves the phase of the region over its classes by some grouping, which are at hand: until the gap is at most the wanted
/// one, 0 to 10^12, or the nodes, 1 to 20,000, are spent. Where the region has a first plan, the part has a plan of at most
/// its cost.
///
/// # Errors
/// Exactly where the program over these classes has too many columns or rows; or for want of memory.
pub fn region_with(
    alloc: Global,
    case: &Case,
    classes: &Classes,
    gap: u64,
    nodes: u32,
) -> Result<(Answer, Part), SizeFault>
    requires classes { (how : Grouping) × (classes.now.list ≡ phase_classes_of case.now (region_setting case.now) how) }
    requires gap { gap ≤ 1000000000000 }
    requires some { 1 ≤ nodes }
    requires few { nodes ≤ 20000 }
    ensures solved { IfOk result (λ r. (how : Grouping) → classes.now.list ≡ phase_classes_of case.now (region_setting case.now) how → IsSolved case.now (region_setting case.now) how (region_allowed case.now) (region_cost case.now) gap nodes (first_plan_of case.now) r.0 r.1) }
    ensures fault { IfErr result (IsFault (size_fault_of case.now (region_setting case.now) classes.now.list)) }
{
    let first = first_plan(alloc, case)?;
    solve(
        alloc,
        case,
        &Phase::Region,
        classes,
        first.as_ref(),
        gap,
        nodes,
    )
}

/// Solves the phase of the region with this grouping: until the gap is at most the wanted one, 0 to 10^12, or the nodes, 1
/// to 20,000, are spent. Where the region has a first plan, the part has a plan of at most its cost.
///
/// # Errors
/// Exactly where the phase's program has too many columns or rows; or for want of memory.
pub fn region(
    alloc: Global,
    case: &Case,
    how: Grouping,
    gap: u64,
    nodes: u32,
) -> Result<(Answer, Part), SizeFault>
    requires gap { gap ≤ 1000000000000 }
    requires some { 1 ≤ nodes }
    requires few { nodes ≤ 20000 }
    ensures solved { IfOk result (λ r. IsSolved case.now (region_setting case.now) how (region_allowed case.now) (region_cost case.now) gap nodes (first_plan_of case.now) r.0 r.1) }
    ensures fault { IfErr result (IsFault (size_fault_of case.now (region_setting case.now) (phase_classes_of case.now (region_setting case.now) how))) }
{
    let classes = phase_classes(alloc, case, &Phase::Region, how)?;
    region_with(alloc, case, &classes, gap, nodes)
}
