//! The text of a solved sample.
ghost use Rattle.std.specs.Prelude.{◌≡◌, IfOk, string_bytes};
ghost use Rattle.ras_texts.specs.Samples.{full_line, none_line, racks_line, sample_text};

use crate::reasons::phase_text;
use crate::verdicts::{answer_text, part_line};
use plan_checker::PhaseName;
use plan_document::{Document, Part, RackPart};
use std::alloc::{AllocError, Global};

// That a phase has neither a plan nor a bound.
fn none_line(alloc: Global, phase: PhaseName) -> Result<String, AllocError>
    ensures { IfOk result (λ text. string_bytes text ≡ none_line phase) }
{
    let phase = phase_text(phase);
    format!(in alloc; "{phase} none\n")
}

// The line of a part.
fn full_line(alloc: Global, phase: PhaseName, part: &Part) -> Result<String, AllocError>
    ensures { IfOk result (λ text. string_bytes text ≡ full_line phase part.now part.now.plan part.now.lower) }
{
    match (&part.plan, part.lower) {
        (None, None) => none_line(alloc, phase),
        (None, Some(_)) | (Some(_), _) => part_line(alloc, phase, part),
    }
}

// The line of the part of the racks.
fn racks_line(alloc: Global, rack: &Option<RackPart>) -> Result<String, AllocError>
    ensures { IfOk result (λ text. string_bytes text ≡ racks_line rack.now) }
{
    match rack {
        None => none_line(alloc, PhaseName::Rack),
        Some(rack) => full_line(alloc, PhaseName::Rack, &rack.part),
    }
}

/// What `ras sample` prints of a document over a region with so many servers and switchboards: these numbers, the answer,
/// and for the region and the racks each a line, as `ras check` prints it, or that there is none.
pub fn sample_text(
    alloc: Global,
    servers: u32,
    switchboards: u32,
    document: &Document,
) -> Result<String, AllocError>
    ensures { IfOk result (λ text. string_bytes text ≡ sample_text servers switchboards document.now) }
{
    let answer = answer_text(document.answer);
    let region = full_line(alloc, PhaseName::Region, &document.region)?;
    let rack = racks_line(alloc, &document.rack)?;
    format!(in alloc;
        "servers {servers}\nswitchboards {switchboards}\nanswer {answer}\n{region}{rack}"
    )
}
