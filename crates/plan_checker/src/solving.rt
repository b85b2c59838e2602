//! The document of a case, by any planner.
ghost use Rattle.std.specs.Prelude.{◌≡◌, ◌≤◌, IfErr, IfOk, None, OnOk};
ghost use Rattle.plan_model.specs.declared.cases.Grouping.TheVariants.{Class};
ghost use Rattle.program_rows.specs.Settings.{phase_classes, region_setting};
ghost use Rattle.program_rows.specs.Sizes.{IsFault, size_fault_of};
ghost use Rattle.plan_checker.specs.Solution.{IsSolution};

use crate::planner::Planner;
use crate::protections::case_protections;
use crate::racks::after_region;
use plan_document::Document;
use plan_model::{Case, Grouping};
use program_rows::SizeFault;
use std::alloc::Global;
use symmetry_classes::Classes;

/// The document of a case, by a planner and over the classes of the region, which are at hand. The gap between a plan's cost
/// and the least cost is wanted to be at most `gap`, 0 to 10^12; each tree has at most `nodes` nodes, 1 to 20,000; and the racks
/// of at most `racks` reservations are planned, 0 to 64.
///
/// The region is planned first. Where that reaches the wanted gap, the reservations with the greatest rack excess are chosen,
/// and where there are any, their racks are planned from the region's assignment. The answer is that of the last part. Servers
/// are grouped in classes. The document states the protections of the case.
///
/// The checker accepts the document, and over any names of the servers and reservations, what is written of it is read again.
/// It shows points in its last part alone, and only where that part's budget was spent. Then each leaf of its tree that is not
/// refuted is tight, and is undecided or has a plan within its bound; and no change of one server makes the plan cheaper.
///
/// # Errors
/// Exactly where the program of the region has too many columns or rows; or for want of memory.
pub fn solve_case<P: Planner>(
    alloc: Global,
    case: &Case,
    classes: &Classes,
    gap: u64,
    nodes: u32,
    racks: u32,
    planner: &mut P,
) -> Result<Document, SizeFault>
    requires classes { classes.now.list ≡ phase_classes case.now (region_setting case.now) Class }
    requires gap { gap ≤ 1000000000000 }
    requires some { 1 ≤ nodes }
    requires few { nodes ≤ 20000 }
    requires racks { racks ≤ 64 }
    ensures solution { IfOk result (IsSolution case.now gap nodes racks) }
    ensures fits { OnOk result (size_fault_of case.now (region_setting case.now) (phase_classes case.now (region_setting case.now) Class) ≡ None) }
    ensures fault { IfErr result (IsFault (size_fault_of case.now (region_setting case.now) (phase_classes case.now (region_setting case.now) Class))) }
{
    let (answer, part) = planner.first(alloc, case, classes, gap, nodes)?;
    let (last, rack) = after_region(alloc, case, answer, &part, gap, nodes, racks, planner)?;
    let protection = case_protections(alloc, case)?;
    Ok(Document {
        answer: last,
        grouping: Grouping::Class,
        gap,
        nodes,
        racks,
        region: part,
        rack,
        protection,
    })
}
