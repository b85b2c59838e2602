ghost use Rattle.std.specs.Prelude.{◌≡◌, ◌≤◌, IfErr, IfOk, None, OnOk};
ghost use Rattle.program_rows.specs.Settings.{region_setting};
ghost use Rattle.program_rows.specs.Sizes.{IsFault, size_fault_of};
ghost use Rattle.plan_checker.specs.Solution.{IsSolution};
ghost use Rattle.ras_rounds.specs.Rounds.{region_classes};

use crate::table::Table;
use plan_checker::{Planner, solve_case};
use plan_document::Document;
use plan_model::Case;
use program_rows::SizeFault;
use std::alloc::Global;

/// The document of a round's case, by a planner and over the classes of the table, which is the case's. The gap between a
/// plan's cost and the least cost is wanted to be at most `gap`, 0 to 10^12; each tree has at most `nodes` nodes, 1 to 20,000;
/// and the racks of at most `racks` reservations are planned, 0 to 64.
///
/// The checker accepts the document for the case. It has an answer other than limit where `nodes` is enough for every choice of
/// the counts in each phase; and points only in the last part, where that part's budget was spent.
///
/// # Errors
/// Exactly where the program of the region has too many columns or rows; or for want of memory.
pub fn round<P: Planner>(
    alloc: Global,
    case: &Case,
    table: &Table,
    gap: u64,
    nodes: u32,
    racks: u32,
    planner: &mut P,
) -> Result<Document, SizeFault>
    requires table { table.now ≡ region_classes case.now }
    requires gap { gap ≤ 1000000000000 }
    requires some { 1 ≤ nodes }
    requires few { nodes ≤ 20000 }
    requires racks { racks ≤ 64 }
    ensures solution { IfOk result (IsSolution case.now gap nodes racks) }
    ensures fits { OnOk result (size_fault_of case.now (region_setting case.now) (region_classes case.now) ≡ None) }
    ensures fault { IfErr result (IsFault (size_fault_of case.now (region_setting case.now) (region_classes case.now))) }
{
    solve_case(alloc, case, table.classes(), gap, nodes, racks, planner)
}
