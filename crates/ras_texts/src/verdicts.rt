//! The text of a verdict.
ghost use Rattle.std.specs.Prelude.{◌≡◌, IfOk, string_bytes};
ghost use Rattle.ras_texts.specs.Verdicts.{accepted_text, answer_text, part_line, rack_line, stated_line, verdict_text};

use crate::reasons::{phase_text, reason_text};
use plan_checker::{PhaseName, Verdict};
use plan_document::{Answer, Document, Part, Planned, RackPart};
use ras_inventory::Region;
use ras_requests::Requests;
use std::alloc::{AllocError, Global};

/// The name of an answer.
pub(crate) fn answer_text(answer: Answer) -> &'static str
    ensures { result.now ≡ answer_text answer }
{
    match answer {
        Answer::Plan => "plan",
        Answer::Infeasible => "infeasible",
        Answer::Limit => "limit",
    }
}

// The line of a part: value, bound and gap of a plan, or the bound alone, or nothing.
fn stated_line(
    alloc: Global,
    phase: PhaseName,
    plan: &Option<Planned>,
    lower: Option<u64>,
) -> Result<String, AllocError>
    ensures { IfOk result (λ text. string_bytes text ≡ stated_line phase plan.now lower) }
{
    let phase = phase_text(phase);
    match (plan, lower) {
        (Some(plan), lower) => {
            let value = plan.value;
            let lower = lower.unwrap_or(0);
            let gap = plan.gap;
            format!(in alloc; "{phase} value {value} lower {lower} gap {gap}\n")
        }
        (None, Some(lower)) => format!(in alloc; "{phase} lower {lower}\n"),
        (None, None) => String::from_str(alloc, ""),
    }
}

/// The line of a part.
pub(crate) fn part_line(alloc: Global, phase: PhaseName, part: &Part) -> Result<String, AllocError>
    ensures { IfOk result (λ text. string_bytes text ≡ part_line phase part.now) }
{
    stated_line(alloc, phase, &part.plan, part.lower)
}

// The line of the part of the racks, where there is one.
fn rack_line(alloc: Global, rack: &Option<RackPart>) -> Result<String, AllocError>
    ensures { IfOk result (λ text. string_bytes text ≡ rack_line rack.now) }
{
    match rack {
        None => String::from_str(alloc, ""),
        Some(rack) => part_line(alloc, PhaseName::Rack, &rack.part),
    }
}

// The lines of a document that is accepted.
fn accepted_text(alloc: Global, document: &Document) -> Result<String, AllocError>
    ensures { IfOk result (λ text. string_bytes text ≡ accepted_text document.now) }
{
    let answer = answer_text(document.answer);
    let region = part_line(alloc, PhaseName::Region, &document.region)?;
    let rack = rack_line(alloc, &document.rack)?;
    format!(in alloc; "yes {answer}\n{region}{rack}")
}

/// What `ras check` prints: `yes` with the numbers of a document that is accepted, or `no` with the reason. Servers and
/// switchboards have the region's names, reservations the requests'.
pub fn verdict_text(
    alloc: Global,
    region: &Region,
    requests: &Requests,
    document: &Document,
    verdict: Verdict,
) -> Result<String, AllocError>
    ensures { IfOk result (λ text. string_bytes text ≡ verdict_text region.now requests.now document.now verdict) }
{
    match verdict {
        Verdict::Yes => accepted_text(alloc, document),
        Verdict::No(reason) => {
            let reason = reason_text(alloc, region, requests, reason)?;
            format!(in alloc; "no {reason}\n")
        }
    }
}
