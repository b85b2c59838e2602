//! Why a document is not accepted, as a text.
ghost use Rattle.std.specs.Prelude.{◌≡◌, ◌++◌, IfOk, codes, decimal, string_bytes};
ghost use Rattle.ras_texts.specs.Verdicts.{found_text, loss_text, phase_text, reason_text, rule_text};

use crate::names::{board_name, center_name, reservation_name, server_name};
use bound_certificate::TreeWhy;
use plan_checker::{PhaseName, Reason};
use plan_model::Lost;
use ras_inventory::Region;
use ras_requests::Requests;
use std::alloc::{AllocError, Global};

/// The name of a part.
pub(crate) fn phase_text(phase: PhaseName) -> &'static str
    ensures { result.now ≡ phase_text phase }
{
    match phase {
        PhaseName::Region => "region",
        PhaseName::Rack => "rack",
    }
}

// The rule of a tree that a node breaks.
fn rule_text(why: TreeWhy) -> &'static str
    ensures { result.now ≡ rule_text why }
{
    match why {
        TreeWhy::Orphan => "orphan",
        TreeWhy::Column => "column",
        TreeWhy::At => "at",
        TreeWhy::Child => "child",
        TreeWhy::Row => "row",
        TreeWhy::Weak => "weak",
    }
}

// The loss after which a need is not kept.
fn loss_text(region: &Region, lost: Lost) -> &str
    ensures { result.now ≡ loss_text region.now lost }
{
    match lost {
        Lost::Total => "total",
        Lost::Board(board) => board_name(region, board),
        Lost::Center(center) => center_name(region, center),
    }
}

// A reservation whose protection is not that of the requests.
fn protection_text(alloc: Global, name: &str) -> Result<String, AllocError>
    ensures { IfOk result (λ text. string_bytes text ≡ codes "protection " ++ name.now) }
{
    format!(in alloc; "protection {name}")
}

// A server that does not serve.
fn serves_text(alloc: Global, phase: PhaseName, server: &str) -> Result<String, AllocError>
    ensures { IfOk result (λ text. string_bytes text ≡ codes "serves " ++ (phase_text phase ++ (codes " " ++ server.now))) }
{
    let phase = phase_text(phase);
    format!(in alloc; "serves {phase} {server}")
}

// A reservation that does not keep its need, and after which loss.
fn need_text(alloc: Global, phase: PhaseName, name: &str, loss: &str) -> Result<String, AllocError>
    ensures { IfOk result (λ text. string_bytes text ≡ codes "need " ++ (phase_text phase ++ (codes " " ++ (name.now ++ (codes " " ++ loss.now))))) }
{
    let phase = phase_text(phase);
    format!(in alloc; "need {phase} {name} {loss}")
}

// A stated value that is not the cost.
fn value_text(
    alloc: Global,
    phase: PhaseName,
    stated: u64,
    found: u64,
) -> Result<String, AllocError>
    ensures { IfOk result (λ text. string_bytes text ≡ codes "value " ++ (phase_text phase ++ (codes " stated " ++ (decimal stated ++ (codes " found " ++ decimal found))))) }
{
    let phase = phase_text(phase);
    format!(in alloc; "value {phase} stated {stated} found {found}")
}

// A program that is too large.
fn size_text(alloc: Global, phase: PhaseName) -> Result<String, AllocError>
    ensures { IfOk result (λ text. string_bytes text ≡ codes "size " ++ phase_text phase) }
{
    let phase = phase_text(phase);
    format!(in alloc; "size {phase}")
}

// A node that breaks a rule of its tree.
fn tree_text(alloc: Global, phase: PhaseName, node: u32, why: TreeWhy) -> Result<String, AllocError>
    ensures { IfOk result (λ text. string_bytes text ≡ codes "tree " ++ (phase_text phase ++ (codes " node " ++ (decimal node ++ (codes " " ++ rule_text why))))) }
{
    let phase = phase_text(phase);
    let rule = rule_text(why);
    format!(in alloc; "tree {phase} node {node} {rule}")
}

// A stated bound that is not the tree's.
fn lower_text(
    alloc: Global,
    phase: PhaseName,
    stated: u64,
    found: Option<u64>,
) -> Result<String, AllocError>
    ensures { IfOk result (λ text. string_bytes text ≡ codes "lower " ++ (phase_text phase ++ (codes " stated " ++ (decimal stated ++ (codes " found " ++ found_text found))))) }
{
    let phase = phase_text(phase);
    match found {
        None => format!(in alloc; "lower {phase} stated {stated} found none"),
        Some(found) => format!(in alloc; "lower {phase} stated {stated} found {found}"),
    }
}

// A gap that is not right.
fn gap_text(alloc: Global, phase: PhaseName, stated: u64) -> Result<String, AllocError>
    ensures { IfOk result (λ text. string_bytes text ≡ codes "gap " ++ (phase_text phase ++ (codes " stated " ++ decimal stated))) }
{
    let phase = phase_text(phase);
    format!(in alloc; "gap {phase} stated {stated}")
}

// A budget that is not spent.
fn budget_text(alloc: Global, phase: PhaseName, nodes: u32) -> Result<String, AllocError>
    ensures { IfOk result (λ text. string_bytes text ≡ codes "budget " ++ (phase_text phase ++ (codes " nodes " ++ decimal nodes))) }
{
    let phase = phase_text(phase);
    format!(in alloc; "budget {phase} nodes {nodes}")
}

// A shown point that is not right.
fn point_text(alloc: Global, phase: PhaseName, node: u32) -> Result<String, AllocError>
    ensures { IfOk result (λ text. string_bytes text ≡ codes "point " ++ (phase_text phase ++ (codes " node " ++ decimal node))) }
{
    let phase = phase_text(phase);
    format!(in alloc; "point {phase} node {node}")
}

/// Why a document is not accepted.
pub(crate) fn reason_text(
    alloc: Global,
    region: &Region,
    requests: &Requests,
    reason: Reason,
) -> Result<String, AllocError>
    ensures { IfOk result (λ text. string_bytes text ≡ reason_text region.now requests.now reason) }
{
    match reason {
        Reason::Protection { r } => protection_text(alloc, reservation_name(requests, r)),
        Reason::Serves { phase, server } => serves_text(alloc, phase, server_name(region, server)),
        Reason::Need { phase, r, lost } => {
            let name = reservation_name(requests, r);
            need_text(alloc, phase, name, loss_text(region, lost))
        }
        Reason::Value {
            phase,
            stated,
            found,
        } => value_text(alloc, phase, stated, found),
        Reason::Size { phase } => size_text(alloc, phase),
        Reason::Tree { phase, node, why } => tree_text(alloc, phase, node, why),
        Reason::Open { node } => format!(in alloc; "open node {node}"),
        Reason::Lower {
            phase,
            stated,
            found,
        } => lower_text(alloc, phase, stated, found),
        Reason::Gap { phase, stated } => gap_text(alloc, phase, stated),
        Reason::Chosen { place } => format!(in alloc; "chosen place {place}"),
        Reason::Fixed { server } => {
            let server = server_name(region, server);
            format!(in alloc; "fixed {server}")
        }
        Reason::Budget { phase, nodes } => budget_text(alloc, phase, nodes),
        Reason::Point { phase, node } => point_text(alloc, phase, node),
    }
}
