//! The phase of racks.
ghost use Rattle.std.specs.Prelude.{◌≡◌, ◌≤◌, ◌<◌, ℕ, IfErr, IfOk, IsTrue, Some, length};
ghost use Rattle.plan_model.specs.declared.cases.Grouping.TheVariants.{Class};
ghost use Rattle.plan_model.specs.Allowed.{region_allowed};
ghost use Rattle.plan_model.specs.Costs.{rack_cost};
ghost use Rattle.plan_model.specs.Rack.{rack_allowed};
ghost use Rattle.program_rows.specs.declared.fault.SizeFault.TheVariants.{Memory};
ghost use Rattle.program_rows.specs.Choice.{chosen_of};
ghost use Rattle.program_rows.specs.Settings.{phase_classes as phase_classes_of, rack_setting};
ghost use Rattle.program_rows.specs.Sizes.{IsFault, size_fault_of};
ghost use Rattle.plan_document.specs.declared.document.Answer.TheVariants.{Infeasible};
ghost use Rattle.plan_checker.specs.Shape.{HasPlan};
ghost use Rattle.plan_checker.specs.Solved.{IsSolved};

use phase_search::solve;
use plan_checker::phase_classes;
use plan_document::{Answer, Part};
use plan_model::{Assignment, Case, Grouping};
use program_rows::{Phase, SizeFault};
use ras_table::List;
use std::alloc::Global;

/// Solves the phase of racks with this grouping, from a region's assignment and the reservations that are chosen after it:
/// until the gap is at most the wanted one, 0 to 10^12, or the nodes, 1 to 20,000, are spent. The part always has a plan,
/// which costs at most what the region's assignment does, and the answer is a plan or a limit.
///
/// # Errors
/// Exactly where the phase's program has too many columns or rows, which that over classes has not; or for want of memory.
pub fn rack(
    alloc: Global,
    case: &Case,
    a1: &Assignment,
    chosen: &List<u32>,
    how: Grouping,
    gap: u64,
    nodes: u32,
) -> Result<(Answer, Part), SizeFault>
    requires allowed { IsTrue (region_allowed case.now a1.now) }
    requires chosen { (most : ℕ) × (chosen.now ≡ chosen_of case.now a1.now most) }
    requires some_chosen { 0 < length chosen.now }
    requires gap { gap ≤ 1000000000000 }
    requires some { 1 ≤ nodes }
    requires few { nodes ≤ 20000 }
    ensures solved { IfOk result (λ r. IsSolved case.now (rack_setting case.now a1.now chosen.now) how (rack_allowed case.now a1.now chosen.now) (λ a. rack_cost case.now a chosen.now) gap nodes (Some a1.now) r.0 r.1) }
    ensures plan { IfOk result (λ r. HasPlan r.1.plan) }
    ensures answer { IfOk result (λ r. r.0 ≡ Infeasible → ⊥) }
    ensures fault { IfErr result (IsFault (size_fault_of case.now (rack_setting case.now a1.now chosen.now) (phase_classes_of case.now (rack_setting case.now a1.now chosen.now) how))) }
    ensures fits { how ≡ Class → IfErr result (λ fault. fault ≡ Memory) }
{
    let phase = Phase::Rack { from: a1, chosen };
    let classes = phase_classes(alloc, case, &phase, how)?;
    solve(alloc, case, &phase, &classes, Some(a1), gap, nodes)
}
