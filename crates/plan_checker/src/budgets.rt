//! Whether the budget of a part is spent.
ghost use Rattle.std.specs.Prelude.{◌≡◌, IfOk, IsTrue, None, Some, length};
ghost use Rattle.bound_certificate.specs.Trees.{fault_of_tree};
ghost use Rattle.program_rows.specs.Accepted.{phase_program};
ghost use Rattle.program_rows.specs.Settings.{setting_of, start_fits};
ghost use Rattle.plan_checker.specs.Reasons.{budget_reason, point_reason, spent_reason, HasSoundTree};

use crate::programs::program_of;
use crate::verdict::{PhaseName, Reason};
use bound_certificate::{Node, first_unshown};
use plan_document::{Document, Part};
use plan_model::Case;
use program_rows::Phase;
use ras_table::List;
use std::alloc::{AllocError, Global};

/// Whether the tree has another number of nodes than that of a spent budget.
fn budget_reason(part: PhaseName, budget: u32, nodes: &List<Node>) -> Option<Reason>
    ensures { result ≡ budget_reason part budget nodes.now }
{
    let count = nodes.len();
    if count <= budget && u64::from(budget) < u64::from(count) + 2 {
        return None;
    }
    Some(Reason::Budget {
        phase: part,
        nodes: count,
    })
}

/// The first split whose shown point does not tell why it was made.
fn point_reason(
    alloc: Global,
    part: PhaseName,
    case: &Case,
    phase: &Phase<'_>,
    document: &Document,
    last: &Part,
) -> Result<Option<Reason>, AllocError>
    requires start { IsTrue (start_fits case.now phase.now) }
    requires sound { HasSoundTree (phase_program case.now (setting_of case.now phase.now) document.now.grouping) last.now.tree.nodes }
    ensures { IfOk result (λ reason. reason ≡ point_reason part (phase_program case.now (setting_of case.now phase.now) document.now.grouping) last.now.lower last.now.tree.nodes) }
{
    let Some(lower) = last.lower else {
        return Ok(None);
    };
    let Some(program) = program_of(alloc, case, phase, document.grouping)? else {
        return Ok(None);
    };
    match first_unshown(alloc, &program, &last.tree, lower)? {
        Some(node) => { Ok(Some(Reason::Point { phase: part, node })) }
        None => Ok(None),
    }
}

/// Why the budget of the last part is not spent.
pub fn spent_reason(
    alloc: Global,
    part: PhaseName,
    case: &Case,
    phase: &Phase<'_>,
    document: &Document,
    last: &Part,
) -> Result<Option<Reason>, AllocError>
    requires start { IsTrue (start_fits case.now phase.now) }
    requires sound { HasSoundTree (phase_program case.now (setting_of case.now phase.now) document.now.grouping) last.now.tree.nodes }
    ensures { IfOk result (λ reason. reason ≡ spent_reason part case.now (setting_of case.now phase.now) document.now last.now) }
{
    if let Some(reason) = budget_reason(part, document.nodes, &last.tree.nodes) {
        return Ok(Some(reason));
    }
    point_reason(alloc, part, case, phase, document, last)
}
