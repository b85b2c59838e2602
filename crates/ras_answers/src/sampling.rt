//! What `sample` answers.
ghost use Rattle.std.specs.Prelude.{◌≡◌, ◌≤◌, IfOk, None, length};
ghost use Rattle.ras_texts.specs.Samples.{sample_text};
ghost use Rattle.ras_answers.specs.Answered.{Printed, seen};
ghost use Rattle.ras_answers.specs.Sample.{IsSummary, SampleAnswers};
ghost use Rattle.ras_answers.specs.Solve.{ending_at, region_size};

use crate::answer::Answer;
use crate::solving::ending_at;
use plan_document::Document;
use plan_model::Case;
use plan_solver::solve;
use program_rows::SizeFault;
use ras_inventory::Region;
use ras_texts::sample_text;
use sample_case::sample_case;
use std::alloc::{AllocError, Global};

/// The wanted gap where no option gives it.
const GAP: u64 = 0;

/// The most nodes of one phase's tree where no option gives them.
const NODES: u32 = 100;

/// The most reservations of the rack phase where no option gives them.
const RACKS: u32 = 4;

// The lines of a document over a region, as a text.
fn summary_answer(alloc: Global, region: &Region, document: &Document) -> Result<Answer, AllocError>
    ensures { IfOk result (λ answer. seen answer ≡ Printed (ending_at document.now.answer) (sample_text (length region.now.servers) (length region.now.boards) document.now)) }
{
    let servers = region.servers.len();
    let switchboards = region.boards.len();
    let text = sample_text(alloc, servers, switchboards, document)?;
    Ok(Answer::Printed {
        ending: ending_at(document.answer),
        text: text.into_bytes(),
    })
}

// The lines of the document of a case, whose program of the region fits.
fn solved_summary(alloc: Global, region: &Region, case: &Case) -> Result<Answer, AllocError>
    requires { region_size case.now ≡ None }
    ensures { IfOk result (λ answer. IsSummary region.now case.now (seen answer)) }
{
    match solve(alloc, case, GAP, NODES, RACKS) {
        Ok(document) => summary_answer(alloc, region, &document),
        Err(SizeFault::Memory) => Err(AllocError),
        Err(SizeFault::Columns(_) | SizeFault::Rows(_)) => unreachable!(),
    }
}

/// What `sample` answers to a number up to 65,536 and a size from 2 to 40: the lines of the document of the case that the
/// generated files join to, for the options that no word gives.
///
/// # Errors
///
/// Memory runs out.
pub fn sample_answer(alloc: Global, number: u32, size: u32) -> Result<Answer, AllocError>
    requires number { number ≤ 65536 }
    requires least { 2 ≤ size }
    requires most { size ≤ 40 }
    ensures { IfOk result (λ answer. SampleAnswers number size (seen answer)) }
{
    let sample = sample_case(alloc, number, size)?;
    solved_summary(alloc, &sample.region, &sample.case)
}
