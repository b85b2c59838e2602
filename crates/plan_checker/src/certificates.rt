//! What is wrong with the certificate of a part.
ghost use Rattle.std.specs.Prelude.{◌≡◌, ◌≤◌, ◌^◌, IfOk, IfSome, IsTrue};
ghost use Rattle.program_rows.specs.Settings.{setting_of, start_fits};
ghost use Rattle.plan_checker.specs.Shape.{PartInRange};
ghost use Rattle.plan_checker.specs.Reasons.{first_open, is_closed, open_reason, lower_reason, gap_goes, gap_reason, bound_reason, certificate_reason};

use crate::programs::program_of;
use crate::verdict::{PhaseName, Reason};
use bound_certificate::{Least, LowerFault, Node, lower};
use plan_document::{Answer, Document, Part, Planned};
use plan_model::Case;
use program_rows::Phase;
use ras_table::List;
use std::alloc::{AllocError, Global};

/// Whether a node is no leaf, or is refuted.
fn is_closed(node: &Node) -> bool
    ensures { result ≡ is_closed node.now }
{
    match node {
        Node::Split { .. } => true,
        Node::Bound(_) => false,
        Node::Refute(_) => true,
    }
}

/// The first leaf that is not refuted.
fn first_open(nodes: &List<Node>) -> Option<u32>
    ensures { result ≡ first_open nodes.now }
{
    for (i, node) in nodes.as_slice().iter().enumerate() {
        if !is_closed(node) {
            return Some(i as u32);
        }
    }
    None
}

/// The first leaf that is not refuted, where the answer is that there is no plan.
fn open_reason(part: PhaseName, answer: Answer, nodes: &List<Node>) -> Option<Reason>
    ensures { result ≡ open_reason part answer nodes.now }
{
    match (part, answer) {
        (PhaseName::Region, Answer::Infeasible) => {
            let node = first_open(nodes)?;
            Some(Reason::Open { node })
        }
        _ => None,
    }
}

/// Whether the stated bound is not the tree's.
fn lower_reason(part: PhaseName, stated: Option<u64>, found: Least) -> Option<Reason>
    ensures { result ≡ lower_reason part stated found }
{
    let stated = stated?;
    match found {
        Least::At(n) => {
            if stated == n {
                return None;
            }
            Some(Reason::Lower {
                phase: part,
                stated,
                found: Some(n),
            })
        }
        Least::AllRefuted => {
            Some(Reason::Lower {
                phase: part,
                stated,
                found: None,
            })
        }
    }
}

/// Whether a gap goes with the answer and the wanted gap.
fn gap_goes(answer: Answer, last: bool, wanted: u64, gap: u64) -> bool
    ensures { result ≡ gap_goes answer last wanted gap }
{
    match answer {
        Answer::Plan => gap <= wanted,
        Answer::Infeasible => true,
        Answer::Limit => !last || wanted < gap,
    }
}

/// Whether the stated gap is not value minus bound, or does not go with the answer.
fn gap_reason(
    part: PhaseName,
    answer: Answer,
    last: bool,
    wanted: u64,
    lower: Option<u64>,
    plan: &Option<Planned>,
) -> Option<Reason>
    requires lower { IfSome lower (λ n. n ≤ 2 ^ 62) }
    requires gap { IfSome plan.now (λ p. p.gap ≤ 2 ^ 62) }
    ensures { result ≡ gap_reason part answer last wanted lower plan.now }
{
    let Some(plan) = plan else {
        return None;
    };
    let lower = lower?;
    if plan.gap + lower == plan.value && gap_goes(answer, last, wanted, plan.gap) {
        return None;
    }
    Some(Reason::Gap {
        phase: part,
        stated: plan.gap,
    })
}

/// What is wrong with what a part states, where its tree has this bound.
fn bound_reason(
    part: PhaseName,
    document: &Document,
    last: bool,
    stated: &Part,
    found: Least,
) -> Option<Reason>
    requires lower { IfSome stated.now.lower (λ n. n ≤ 2 ^ 62) }
    requires gap { IfSome stated.now.plan (λ p. p.gap ≤ 2 ^ 62) }
    ensures { result ≡ bound_reason part document.now last stated.now found }
{
    if let Some(reason) = open_reason(part, document.answer, &stated.tree.nodes) {
        return Some(reason);
    }
    if let Some(reason) = lower_reason(part, stated.lower, found) {
        return Some(reason);
    }
    gap_reason(
        part,
        document.answer,
        last,
        document.gap,
        stated.lower,
        &stated.plan,
    )
}

/// What is wrong with the certificate of a part, the last of the document or not.
pub fn certificate_reason(
    alloc: Global,
    part: PhaseName,
    case: &Case,
    phase: &Phase<'_>,
    document: &Document,
    last: bool,
    stated: &Part,
) -> Result<Option<Reason>, AllocError>
    requires start { IsTrue (start_fits case.now phase.now) }
    requires stated { PartInRange case.now stated.now }
    ensures { IfOk result (λ reason. reason ≡ certificate_reason part case.now (setting_of case.now phase.now) document.now last stated.now) }
{
    let Some(program) = program_of(alloc, case, phase, document.grouping)? else {
        return Ok(Some(Reason::Size { phase: part }));
    };
    match lower(alloc, &program, &stated.tree) {
        Ok(found) => Ok(bound_reason(part, document, last, stated, found)),
        Err(LowerFault::Tree { node, why }) => {
            Ok(Some(Reason::Tree {
                phase: part,
                node,
                why,
            }))
        }
        Err(LowerFault::Memory) => Err(AllocError),
    }
}
