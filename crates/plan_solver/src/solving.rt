//! The document of a case.
ghost use Rattle.std.specs.Prelude.{◌≡◌, ◌≤◌, IfErr, IfOk, None, OnOk};
ghost use Rattle.plan_model.specs.declared.cases.Grouping.TheVariants.{Class};
ghost use Rattle.program_rows.specs.Settings.{phase_classes as phase_classes_of, region_setting};
ghost use Rattle.program_rows.specs.Sizes.{IsFault, size_fault_of};
ghost use Rattle.plan_checker.specs.Solution.{IsSolution};

use crate::planner::ExactPlanner;
use plan_checker::{phase_classes, solve_case};
use plan_document::Document;
use plan_model::{Case, Grouping};
use program_rows::{Phase, SizeFault};
use std::alloc::Global;

/// The document of a case, by the exact search of its phases; what it keeps is said at `plan_checker::solve_case`. The gap
/// between a plan's cost and the least cost is wanted to be at most `gap`, 0 to 10^12; each tree has at most `nodes` nodes, 1 to
/// 20,000; and the racks of at most `racks` reservations are planned, 0 to 64.
///
/// # Errors
/// Exactly where the program of the region has too many columns or rows; or for want of memory.
pub fn solve(
    alloc: Global,
    case: &Case,
    gap: u64,
    nodes: u32,
    racks: u32,
) -> Result<Document, SizeFault>
    requires gap { gap ≤ 1000000000000 }
    requires some { 1 ≤ nodes }
    requires few { nodes ≤ 20000 }
    requires racks { racks ≤ 64 }
    ensures solution { IfOk result (IsSolution case.now gap nodes racks) }
    ensures fits { OnOk result (size_fault_of case.now (region_setting case.now) (phase_classes_of case.now (region_setting case.now) Class) ≡ None) }
    ensures fault { IfErr result (IsFault (size_fault_of case.now (region_setting case.now) (phase_classes_of case.now (region_setting case.now) Class))) }
{
    let classes = phase_classes(alloc, case, &Phase::Region, Grouping::Class)?;
    solve_case(alloc, case, &classes, gap, nodes, racks, &mut ExactPlanner)
}
