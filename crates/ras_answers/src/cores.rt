//! What `core` answers.
ghost use Rattle.std.specs.Prelude.{◌≡◌, ◌<◌, ◌≤◌, ◌*◌, ◌^◌, ◌∷◌, [], All, IfOk, OnOk, length};
ghost use Rattle.std.specs.List.{remove};
ghost use Rattle.conflict_core.specs.declared.answer.CoreAnswer.TheVariants.{Core, Fits, Limit};
ghost use Rattle.ras_answers.specs.Answered.{seen};
ghost use Rattle.ras_answers.specs.Cores.{AddsShown, CanBePrinted, CanBeShown, CoreAnswers, IsCoreOf, IsCoreText, IsPrintOf, core_ending, without_each};

use crate::all::CaseFiles;
use crate::answer::{Answer, Ending};
use crate::inputs::{InputFault, read_case};
use crate::solving::too_large;
use conflict_core::{CoreAnswer, core, keep_only};
use plan_document::{Document, write_document};
use plan_solver::ExactPlanner;
use ras_table::List;
use ras_texts::put_line;
use std::alloc::{AllocError, Global};

// The members without the n-th.
fn without(alloc: Global, members: &List<u32>, n: u32) -> Result<List<u32>, AllocError>
    requires { n < length members.now }
    ensures { IfOk result (λ fewer. fewer ≡ remove members.now n) }
{
    let mut items = Vec::from_slice(alloc, members.as_slice())?;
    items.remove(n as usize);
    Ok(List::from_vec(items))
}

// Adds the text of a document over the requests kept to its set.
fn put_document(
    alloc: Global,
    text: &mut Vec<u8>,
    files: &CaseFiles,
    members: &List<u32>,
    document: &Document,
) -> Result<(), AllocError>
    requires { CanBeShown files.now (members.now, document.now) }
    ensures { OnOk result (AddsShown files.now ((members.now, document.now) ∷ []) text.old.items text.new.items) }
{
    let kept = keep_only(alloc, &files.requests, members)?;
    let written = write_document(alloc, &files.region, &kept, document)?;
    text.extend_from_slice(written.as_slice())
}

// Adds the text of each plan over the requests kept to the members without the one in its place.
fn put_plans(
    alloc: Global,
    text: &mut Vec<u8>,
    files: &CaseFiles,
    members: &List<u32>,
    plans: &List<Document>,
) -> Result<(), AllocError>
    requires many { length plans.now ≡ length members.now }
    requires each { All (CanBeShown files.now) (without_each members.now plans.now) }
    ensures { OnOk result (AddsShown files.now (without_each members.now plans.now) text.old.items text.new.items) }
{
    for n in 0..plans.len() {
        let fewer = without(alloc, members, n)?;
        put_document(alloc, text, files, &fewer, &plans.as_slice()[n as usize])?;
    }
    Ok(())
}

// The text of a core: its members, the document that says that they can't be met, and the plans for the others.
fn clash_text(
    alloc: Global,
    files: &CaseFiles,
    members: &List<u32>,
    refutation: &Document,
    plans: &List<Document>,
) -> Result<Vec<u8>, AllocError>
    requires { CanBePrinted files.now (Core members.now refutation.now plans.now) }
    ensures { IfOk result (λ text. IsCoreText files.now (Core members.now refutation.now plans.now) text.items) }
{
    let kept = keep_only(alloc, &files.requests, members)?;
    let mut text = Vec::new(alloc);
    put_line(&mut text, b"core", &kept)?;
    put_document(alloc, &mut text, files, members, refutation)?;
    put_plans(alloc, &mut text, files, members, plans)?;
    Ok(text)
}

// The text of a plan for all reservations.
fn plan_text(alloc: Global, files: &CaseFiles, plan: &Document) -> Result<Vec<u8>, AllocError>
    requires { CanBePrinted files.now (Fits plan.now) }
    ensures { IfOk result (λ text. IsCoreText files.now (Fits plan.now) text.items) }
{
    let text = write_document(alloc, &files.region, &files.requests, plan)?;
    Ok(text.into_vec())
}

// The text of a set on which the budget was spent, and of its document.
fn spent_text(
    alloc: Global,
    files: &CaseFiles,
    over: &List<u32>,
    document: &Document,
) -> Result<Vec<u8>, AllocError>
    requires { CanBePrinted files.now (Limit over.now document.now) }
    ensures { IfOk result (λ text. IsCoreText files.now (Limit over.now document.now) text.items) }
{
    let kept = keep_only(alloc, &files.requests, over)?;
    let mut text = Vec::new(alloc);
    put_line(&mut text, b"over", &kept)?;
    put_document(alloc, &mut text, files, over, document)?;
    Ok(text)
}

// The text of an answer.
fn core_text(alloc: Global, files: &CaseFiles, answer: &CoreAnswer) -> Result<Vec<u8>, AllocError>
    requires { CanBePrinted files.now answer.now }
    ensures { IfOk result (λ text. IsCoreText files.now answer.now text.items) }
{
    match answer {
        CoreAnswer::Core {
            members,
            refutation,
            plans,
        } => clash_text(alloc, files, members, refutation, plans),
        CoreAnswer::Fits { plan } => plan_text(alloc, files, plan),
        CoreAnswer::Limit { over, document } => spent_text(alloc, files, over, document),
    }
}

// How a run ends that prints an answer.
fn core_ending(answer: &CoreAnswer) -> Ending
    ensures { result ≡ core_ending answer.now }
{
    match answer {
        CoreAnswer::Core { .. } => Ending::Done,
        CoreAnswer::Fits { .. } => Ending::Fits,
        CoreAnswer::Limit { .. } => Ending::Limit,
    }
}

// An answer, as a text.
fn printed(alloc: Global, files: &CaseFiles, answer: &CoreAnswer) -> Result<Answer, AllocError>
    requires { CanBePrinted files.now answer.now }
    ensures { IfOk result (λ a. IsPrintOf files.now answer.now (seen a)) }
{
    let text = core_text(alloc, files, answer)?;
    Ok(Answer::Printed {
        ending: core_ending(answer),
        text,
    })
}

// A core of the reservations of files, or what was found in its place, or the note on the size of the program of a set.
fn core_of_files(alloc: Global, files: &CaseFiles, nodes: u32) -> Result<Answer, AllocError>
    requires each { length files.now.bindings.of ≡ length files.now.region.servers }
    requires some { 1 ≤ nodes }
    requires few { nodes ≤ 20000 }
    ensures { IfOk result (λ answer. IsCoreOf files.now nodes (seen answer)) }
{
    let mut planner = ExactPlanner;
    match core(
        alloc,
        &files.region,
        &files.requests,
        &files.bindings,
        nodes,
        &mut planner,
    ) {
        Ok(answer) => printed(alloc, files, &answer),
        Err(fault) => too_large(alloc, fault),
    }
}

/// What `core` answers to the bytes of its files: the note on the first that is not valid, or on the program of some set of
/// the reservations that is too large; or the text of a core with its documents, or of a plan for all reservations, or of a set
/// on which the budget was spent before a plan for it was found.
///
/// # Errors
///
/// Memory runs out.
pub fn core_answer(
    alloc: Global,
    inventory: &[u8],
    requests: &[u8],
    bindings: &[u8],
    nodes: u32,
) -> Result<Answer, AllocError>
    requires inventory { length inventory.now ≤ 64 * 2 ^ 20 }
    requires requests { length requests.now ≤ 64 * 2 ^ 20 }
    requires bindings { length bindings.now ≤ 64 * 2 ^ 20 }
    requires some { 1 ≤ nodes }
    requires few { nodes ≤ 20000 }
    ensures { IfOk result (λ answer. CoreAnswers inventory.now requests.now bindings.now nodes (seen answer)) }
{
    match read_case(alloc, inventory, requests, bindings) {
        Ok(files) => core_of_files(alloc, &files, nodes),
        Err(InputFault::Invalid(note)) => Ok(Answer::Invalid { note }),
        Err(InputFault::Memory) => Err(AllocError),
    }
}
