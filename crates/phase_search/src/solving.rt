//! One phase, solved.
ghost use Rattle.std.specs.Prelude.{◌≡◌, ◌≤◌, IfErr, IfOk, IfSome, IsTrue, None, Some, option_map};
ghost use Rattle.plan_model.specs.declared.cases.Grouping.{Grouping};
ghost use Rattle.program_rows.specs.Phases.{phase_allowed, phase_cost, start_allowed};
ghost use Rattle.program_rows.specs.Settings.{phase_classes, setting_of};
ghost use Rattle.program_rows.specs.Sizes.{IsFault, size_fault_of};
ghost use Rattle.phase_search.specs.Phases.{HasChosen};
ghost use Rattle.plan_checker.specs.Solved.{IsSolved};

use crate::first::first_point;
use crate::plans::{plan_of, steady_plan_of};
use crate::points::without_points;
use bound_certificate::Tree;
use branch_bound::{Found, search};
use plan_document::{Answer, Part, Planned};
use plan_model::{Assignment, Case};
use program_rows::{Phase, SizeFault, build};
use std::alloc::Global;
use symmetry_classes::Classes;

/// A part with a plan.
fn planned(plan: Planned, lower: u64, tree: Tree) -> Part
    ensures { result ≡ record { plan = Some plan; lower = Some lower; tree = tree } }
{
    Part {
        plan: Some(plan),
        lower: Some(lower),
        tree,
    }
}

/// A part without a plan.
fn planless(lower: Option<u64>, tree: Tree) -> Part
    ensures { result ≡ record { plan = None; lower = lower; tree = tree } }
{
    Part {
        plan: None,
        lower,
        tree,
    }
}

/// Searches the program of a phase over its classes, from a first assignment if there is one, with at most so many nodes and
/// until the gap is at most the wanted one. The assignment is the expansion of the best point, and its cost the stated value, which may
/// be below that of the point. Where the search spent its nodes, the expansion is settled: no change of one server makes it
/// cheaper. Where this closes the gap, the answer is a plan all the same.
///
/// # Errors
/// Exactly where the program has too many columns or rows; or for want of memory.
pub fn solve(
    alloc: Global,
    case: &Case,
    phase: &Phase<'_>,
    classes: &Classes,
    first: Option<&Assignment>,
    gap: u64,
    nodes: u32,
) -> Result<(Answer, Part), SizeFault>
    requires start { IsTrue (start_allowed case.now phase.now) }
    requires chosen { HasChosen case.now phase.now }
    requires classes { (how : Grouping) × (classes.now.list ≡ phase_classes case.now (setting_of case.now phase.now) how) }
    requires first { IfSome first (λ a. IsTrue (phase_allowed case.now (setting_of case.now phase.now) a.now)) }
    requires gap { gap ≤ 1000000000000 }
    requires some { 1 ≤ nodes }
    requires few { nodes ≤ 20000 }
    ensures solved { IfOk result (λ r. (how : Grouping) → classes.now.list ≡ phase_classes case.now (setting_of case.now phase.now) how → IsSolved case.now (setting_of case.now phase.now) how (phase_allowed case.now (setting_of case.now phase.now)) (phase_cost case.now (setting_of case.now phase.now)) gap nodes (option_map (λ a. a.now) first.entry) r.0 r.1) }
    ensures fault { IfErr result (IsFault (size_fault_of case.now (setting_of case.now phase.now) classes.now.list)) }
{
    let program = build(alloc, case, classes, phase)?;
    let point = first_point(alloc, case, phase, classes, &program, first)?;
    match search(alloc, &program, point.as_ref(), gap, nodes)? {
        Found::Plan {
            point,
            lower,
            tree,
            ..
        } => {
            let plan = plan_of(alloc, case, phase, classes, &program, &point, lower)?;
            Ok((Answer::Plan, planned(plan, lower, without_points(tree))))
        }
        Found::Empty { tree } => Ok((Answer::Infeasible, planless(None, without_points(tree)))),
        Found::Limit { best, lower, tree } => {
            let Some(best) = best else {
                return Ok((Answer::Limit, planless(Some(lower), tree)));
            };
            let plan = steady_plan_of(alloc, case, phase, classes, &program, &best.point, lower)?;
            if plan.gap > gap {
                return Ok((Answer::Limit, planned(plan, lower, tree)));
            }
            Ok((Answer::Plan, planned(plan, lower, without_points(tree))))
        }
    }
}
