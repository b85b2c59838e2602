ghost use Rattle.std.specs.Prelude.{◌≡◌, ◌≤◌, ◌*◌, ◌^◌, IfOk, Some, length, string_bytes};
ghost use Rattle.ras_inventory.specs.RegionRule.{server_names};
ghost use Rattle.ras_requests.specs.RequestsRule.{reservation_names};
ghost use Rattle.plan_document.specs.Writable.{CanBeWritten};
ghost use Rattle.ras_answers.specs.Answered.{Invalid, seen};
ghost use Rattle.ras_answers.specs.Solve.{IsPrinted, IsSolveOf, SolveAnswers, ending_at, size_answer};

use crate::all::CaseFiles;
use crate::answer::{Answer, Ending};
use crate::inputs::{InputFault, read_case};
use plan_document::{Document, write_document};
use plan_model::join;
use plan_solver::solve;
use program_rows::SizeFault;
use ras_texts::{columns_note, rows_note};
use std::alloc::{AllocError, Global};

/// What is asked of a solution.
#[derive(Clone, Copy, Debug)]
pub struct Options {
    /// The wanted gap, 0 to 1,000,000,000,000.
    pub gap: u64,
    /// The most nodes of one phase's tree, 1 to 20,000.
    pub nodes: u32,
    /// The most reservations of the rack phase, 0 to 64.
    pub racks: u32,
}

/// How a run ends that prints a document with such an answer.
pub(crate) fn ending_at(answer: plan_document::Answer) -> Ending
    ensures { result ≡ ending_at answer }
{
    match answer {
        plan_document::Answer::Plan => Ending::Done,
        plan_document::Answer::Infeasible => Ending::Infeasible,
        plan_document::Answer::Limit => Ending::Limit,
    }
}

/// The note on a program that is too large, as a line.
pub(crate) fn size_note(alloc: Global, fault: SizeFault) -> Result<String, AllocError>
    ensures { IfOk result (λ note. size_answer fault ≡ Some (Invalid (string_bytes note))) }
{
    let mut note = match fault {
        SizeFault::Columns(columns) => columns_note(alloc, columns)?,
        SizeFault::Rows(rows) => rows_note(alloc, rows)?,
        SizeFault::Memory => return Err(AllocError),
    };
    note.push_str("\n")?;
    Ok(note)
}

/// What is answered where a program is too large.
pub(crate) fn too_large(alloc: Global, fault: SizeFault) -> Result<Answer, AllocError>
    ensures { IfOk result (λ answer. size_answer fault ≡ Some (seen answer)) }
{
    let note = size_note(alloc, fault)?;
    Ok(Answer::Invalid { note })
}

// A document, as a text.
fn document_answer(
    alloc: Global,
    files: &CaseFiles,
    document: &Document,
) -> Result<Answer, AllocError>
    requires { CanBeWritten (server_names files.now.region.servers) (reservation_names files.now.requests.list) document.now }
    ensures { IfOk result (λ answer. IsPrinted files.now document.now (seen answer)) }
{
    let text = write_document(alloc, &files.region, &files.requests, document)?;
    Ok(Answer::Printed {
        ending: ending_at(document.answer),
        text: text.into_vec(),
    })
}

// The document of the case that the files join to, or the note on its size.
fn solve_files(alloc: Global, files: &CaseFiles, options: Options) -> Result<Answer, AllocError>
    requires each { length files.now.bindings.of ≡ length files.now.region.servers }
    requires gap { options.gap ≤ 1000000000000 }
    requires some { 1 ≤ options.nodes }
    requires nodes { options.nodes ≤ 20000 }
    requires racks { options.racks ≤ 64 }
    ensures { IfOk result (λ answer. IsSolveOf files.now options (seen answer)) }
{
    let case = join(alloc, &files.region, &files.requests, &files.bindings)?;
    match solve(alloc, &case, options.gap, options.nodes, options.racks) {
        Ok(document) => document_answer(alloc, files, &document),
        Err(fault) => too_large(alloc, fault),
    }
}

/// What `solve` answers to the bytes of its files: the note on the first that is not valid, or on a program of the region
/// that is too large; or the text of the document of the case that the files join to.
pub fn solve_answer(
    alloc: Global,
    inventory: &[u8],
    requests: &[u8],
    bindings: &[u8],
    options: Options,
) -> Result<Answer, AllocError>
    requires inventory { length inventory.now ≤ 64 * 2 ^ 20 }
    requires requests { length requests.now ≤ 64 * 2 ^ 20 }
    requires bindings { length bindings.now ≤ 64 * 2 ^ 20 }
    requires gap { options.gap ≤ 1000000000000 }
    requires some { 1 ≤ options.nodes }
    requires nodes { options.nodes ≤ 20000 }
    requires racks { options.racks ≤ 64 }
    ensures { IfOk result (λ answer. SolveAnswers inventory.now requests.now bindings.now options (seen answer)) }
{
    match read_case(alloc, inventory, requests, bindings) {
        Ok(files) => solve_files(alloc, &files, options),
        Err(InputFault::Invalid(note)) => Ok(Answer::Invalid { note }),
        Err(InputFault::Memory) => Err(AllocError),
    }
}
