//! The plan of a whole point.
ghost use Rattle.std.specs.Prelude.{◌≡◌, ◌≤◌, IfOk, IsTrue, true};
ghost use Rattle.plan_model.specs.declared.cases.Assignment.{Assignment};
ghost use Rattle.plan_model.specs.Allowed.{fits};
ghost use Rattle.ip_model.specs.Points.{IsWholePoint, value_of};
ghost use Rattle.program_rows.specs.Phases.{phase_allowed, phase_cost};
ghost use Rattle.program_rows.specs.Settings.{setting_of};
ghost use Rattle.steady_plans.specs.Steady.{IsSteady};
ghost use Rattle.phase_search.specs.Phases.{HasChosen, IsPlanOf, IsReady};

use class_expand::{expand, settle};
use ip_model::Program;
use plan_document::Planned;
use plan_model::{Assignment, Case, copy_assignment, free_plan, rack_cost, region_cost};
use program_rows::Phase;
use ras_table::List;
use std::alloc::{AllocError, Global};
use symmetry_classes::Classes;

/// The assignment that a phase starts from.
fn start(alloc: Global, case: &Case, phase: &Phase<'_>) -> Result<Assignment, AllocError>
    ensures { IfOk result (λ a. a ≡ (setting_of case.now phase.now).start) }
{
    match phase {
        Phase::Region => free_plan(alloc, case),
        Phase::Rack { from, .. } => copy_assignment(alloc, from),
    }
}

/// What an assignment costs in a phase.
fn cost(case: &Case, phase: &Phase<'_>, a: &Assignment) -> u64
    requires fitting { IsTrue (fits case.now a.now) }
    requires chosen { HasChosen case.now phase.now }
    ensures cost { result ≡ phase_cost case.now (setting_of case.now phase.now) a.now }
    ensures most { result ≤ 141000000000000 }
{
    match phase {
        Phase::Region => region_cost(case, a),
        Phase::Rack { chosen, .. } => rack_cost(case, a, chosen),
    }
}

/// The expansion of a whole point. The phase allows it, and it costs at most the point's value.
fn expanded(
    alloc: Global,
    case: &Case,
    phase: &Phase<'_>,
    classes: &Classes,
    program: &Program,
    point: &List<u32>,
) -> Result<Assignment, AllocError>
    requires ready { IsReady case.now phase.now classes.now.list program.now }
    requires whole { IsWholePoint program.now point.now }
    ensures allowed { IfOk result (λ a. IsTrue (phase_allowed case.now (setting_of case.now phase.now) a)) }
    ensures cost { IfOk result (λ a. phase_cost case.now (setting_of case.now phase.now) a ≤ value_of program.now point.now) }
{
    let mut of = start(alloc, case, phase)?;
    expand(case, phase, classes, program, point, &mut of);
    Ok(of)
}

/// The plan of an assignment, with its cost and how far that is above a bound that lies at or under what each allowed
/// assignment costs.
fn stated(case: &Case, phase: &Phase<'_>, of: Assignment, lower: u64) -> Planned
    requires allowed { IsTrue (phase_allowed case.now (setting_of case.now phase.now) of) }
    requires chosen { HasChosen case.now phase.now }
    requires lower { (a : Assignment) → phase_allowed case.now (setting_of case.now phase.now) a ≡ true → lower ≤ phase_cost case.now (setting_of case.now phase.now) a }
    ensures of { result.of ≡ of }
    ensures plan { IsPlanOf case.now (setting_of case.now phase.now) (phase_cost case.now (setting_of case.now phase.now) of) lower result }
{
    let value = cost(case, phase, &of);
    Planned {
        of,
        value,
        gap: value - lower,
    }
}

/// The plan of a whole point: its expansion, with its cost and how far that is above the bound.
pub(crate) fn plan_of(
    alloc: Global,
    case: &Case,
    phase: &Phase<'_>,
    classes: &Classes,
    program: &Program,
    point: &List<u32>,
    lower: u64,
) -> Result<Planned, AllocError>
    requires ready { IsReady case.now phase.now classes.now.list program.now }
    requires whole { IsWholePoint program.now point.now }
    requires lower { (a : Assignment) → phase_allowed case.now (setting_of case.now phase.now) a ≡ true → lower ≤ phase_cost case.now (setting_of case.now phase.now) a }
    ensures { IfOk result (λ plan. IsPlanOf case.now (setting_of case.now phase.now) (value_of program.now point.now) lower plan) }
{
    let of = expanded(alloc, case, phase, classes, program, point)?;
    Ok(stated(case, phase, of, lower))
}

/// The same, but the expansion is settled first: no change of one server makes the plan cheaper.
pub(crate) fn steady_plan_of(
    alloc: Global,
    case: &Case,
    phase: &Phase<'_>,
    classes: &Classes,
    program: &Program,
    point: &List<u32>,
    lower: u64,
) -> Result<Planned, AllocError>
    requires ready { IsReady case.now phase.now classes.now.list program.now }
    requires whole { IsWholePoint program.now point.now }
    requires lower { (a : Assignment) → phase_allowed case.now (setting_of case.now phase.now) a ≡ true → lower ≤ phase_cost case.now (setting_of case.now phase.now) a }
    ensures plan { IfOk result (λ plan. IsPlanOf case.now (setting_of case.now phase.now) (value_of program.now point.now) lower plan) }
    ensures steady { IfOk result (λ plan. IsSteady case.now (setting_of case.now phase.now) plan.of) }
{
    let mut of = expanded(alloc, case, phase, classes, program, point)?;
    settle(alloc, case, phase, &mut of)?;
    Ok(stated(case, phase, of, lower))
}
