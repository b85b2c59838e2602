//! What solves the phases of a case.
ghost use Rattle.std.specs.Prelude.{◌≡◌, ◌≤◌, ◌<◌, ℕ, IfErr, IfOk, IsTrue, None, OnOk, Some, length};
ghost use Rattle.plan_model.specs.declared.cases.Grouping.TheVariants.{Class};
ghost use Rattle.plan_model.specs.Allowed.{region_allowed};
ghost use Rattle.plan_model.specs.Costs.{region_cost, rack_cost};
ghost use Rattle.plan_model.specs.Rack.{rack_allowed};
ghost use Rattle.program_rows.specs.declared.fault.SizeFault.TheVariants.{Memory};
ghost use Rattle.program_rows.specs.Choice.{chosen_of};
ghost use Rattle.program_rows.specs.Settings.{phase_classes, region_setting, rack_setting};
ghost use Rattle.program_rows.specs.Sizes.{IsFault, size_fault_of};
ghost use Rattle.plan_document.specs.declared.document.Answer.TheVariants.{Infeasible};
ghost use Rattle.first_plans.specs.FirstPlan.{first_plan_of};
ghost use Rattle.plan_checker.specs.Shape.{HasPlan};
ghost use Rattle.plan_checker.specs.Solved.{IsSolved};

use plan_document::{Answer, Part};
use plan_model::{Assignment, Case};
use program_rows::SizeFault;
use ras_table::List;
use std::alloc::Global;
use symmetry_classes::Classes;

/// What solves the phases of a case. A caller builds on what each answer keeps, whatever the method. A call may change the
/// planner, whatever it answers.
pub trait Planner {
    /// Solves the phase of the region over its classes: until the gap is at most the wanted one, 0 to 10^12, or the nodes, 1 to
    /// 20,000, are spent. Where the region has a first plan, the part has a plan of at most its cost.
    ///
    /// # Errors
    /// Exactly where the phase's program has too many columns or rows; or for want of memory.
    fn first(
        &mut self,
        alloc: Global,
        case: &Case,
        classes: &Classes,
        gap: u64,
        nodes: u32,
    ) -> Result<(Answer, Part), SizeFault>
        requires classes { classes.now.list ≡ phase_classes case.now (region_setting case.now) Class }
        requires gap { gap ≤ 1000000000000 }
        requires some { 1 ≤ nodes }
        requires few { nodes ≤ 20000 }
        ensures solved { IfOk result (λ r. IsSolved case.now (region_setting case.now) Class (region_allowed case.now) (region_cost case.now) gap nodes (first_plan_of case.now) r.0 r.1) }
        ensures fits { OnOk result (size_fault_of case.now (region_setting case.now) (phase_classes case.now (region_setting case.now) Class) ≡ None) }
        ensures fault { IfErr result (IsFault (size_fault_of case.now (region_setting case.now) (phase_classes case.now (region_setting case.now) Class))) };

    /// Solves the phase of racks, from a region's assignment and the reservations that are chosen after it. The part always has
    /// a plan, which costs at most what the region's assignment does, and the answer is a plan or a limit.
    ///
    /// # Errors
    /// For want of memory.
    fn second(
        &mut self,
        alloc: Global,
        case: &Case,
        from: &Assignment,
        chosen: &List<u32>,
        gap: u64,
        nodes: u32,
    ) -> Result<(Answer, Part), SizeFault>
        requires allowed { IsTrue (region_allowed case.now from.now) }
        requires chosen { (most : ℕ) × (chosen.now ≡ chosen_of case.now from.now most) }
        requires some_chosen { 0 < length chosen.now }
        requires gap { gap ≤ 1000000000000 }
        requires some { 1 ≤ nodes }
        requires few { nodes ≤ 20000 }
        ensures solved { IfOk result (λ r. IsSolved case.now (rack_setting case.now from.now chosen.now) Class (rack_allowed case.now from.now chosen.now) (λ a. rack_cost case.now a chosen.now) gap nodes (Some from.now) r.0 r.1) }
        ensures plan { IfOk result (λ r. HasPlan r.1.plan) }
        ensures answer { IfOk result (λ r. r.0 ≡ Infeasible → ⊥) }
        ensures fault { IfErr result (λ fault. fault ≡ Memory) };
}
