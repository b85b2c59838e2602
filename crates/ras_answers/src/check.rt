ghost use Rattle.std.specs.Prelude.{◌≡◌, ◌≤◌, ◌*◌, ◌^◌, IfOk, length};
ghost use Rattle.ras_inventory.specs.RegionRule.{server_names};
ghost use Rattle.ras_requests.specs.RequestsRule.{reservation_names};
ghost use Rattle.plan_model.specs.declared.cases.Case.{Case};
ghost use Rattle.plan_checker.specs.Shape.{HasShape};
ghost use Rattle.ras_answers.specs.Answered.{seen};
ghost use Rattle.ras_answers.specs.Check.{CheckAnswers, GivesInputs, IsJudged, IsVerdictOn, verdict_answer};

use crate::all::Inputs;
use crate::answer::{Answer, Ending};
use crate::inputs::{InputFault, document_in, read_case};
use plan_checker::{Verdict, check};
use plan_model::{Case, join};
use ras_texts::verdict_text;
use std::alloc::{AllocError, Global};

/// What the files of a case and of a plan over it say, or the note on the first that is not valid.
pub fn read_inputs(
    alloc: Global,
    inventory: &[u8],
    requests: &[u8],
    bindings: &[u8],
    plan: &[u8],
) -> Result<Inputs, InputFault>
    requires inventory { length inventory.now ≤ 64 * 2 ^ 20 }
    requires requests { length requests.now ≤ 64 * 2 ^ 20 }
    requires bindings { length bindings.now ≤ 64 * 2 ^ 20 }
    requires plan { length plan.now ≤ 64 * 2 ^ 20 }
    ensures inputs { GivesInputs inventory.now requests.now bindings.now plan.now result }
    ensures each { IfOk result (λ inputs. length inputs.files.bindings.of ≡ length inputs.files.region.servers) }
{
    let files = match read_case(alloc, inventory, requests, bindings) {
        Ok(files) => files,
        Err(fault) => return Err(fault),
    };
    match document_in(alloc, &files.region, &files.requests, plan) {
        Ok(document) => Ok(Inputs { files, document }),
        Err(fault) => Err(fault),
    }
}

/// A verdict on the document, as a text.
pub(crate) fn printed(
    alloc: Global,
    inputs: &Inputs,
    verdict: Verdict,
) -> Result<Answer, AllocError>
    ensures { IfOk result (λ answer. seen answer ≡ verdict_answer inputs.now verdict) }
{
    let ending = match verdict {
        Verdict::Yes => Ending::Done,
        Verdict::No(_) => Ending::NotAccepted,
    };
    let text = verdict_text(
        alloc,
        &inputs.files.region,
        &inputs.files.requests,
        &inputs.document,
        verdict,
    )?;
    Ok(Answer::Printed {
        ending,
        text: text.into_bytes(),
    })
}

/// The case of files, and the verdict on their document.
#[derive(Drop)]
pub struct Judged {
    pub case: Case,
    pub verdict: Verdict,
}

/// The case of the files, and the verdict on the document in it.
pub fn judge(alloc: Global, inputs: &Inputs) -> Result<Judged, AllocError>
    requires each { length inputs.now.files.bindings.of ≡ length inputs.now.files.region.servers }
    requires shape { (case : Case) → length (server_names inputs.now.files.region.servers) ≡ length case.places
        → length (reservation_names inputs.now.files.requests.list) ≡ length case.wants → HasShape case inputs.now.document }
    ensures judged { IfOk result (λ judged. IsJudged inputs.now judged.case judged.verdict) }
    ensures shape { IfOk result (λ judged. HasShape judged.case inputs.now.document) }
    ensures places { IfOk result (λ judged. length judged.case.places ≡ length inputs.now.files.region.servers) }
{
    let case = join(
        alloc,
        &inputs.files.region,
        &inputs.files.requests,
        &inputs.files.bindings,
    )?;
    let verdict = check(alloc, &case, &inputs.document)?;
    Ok(Judged { case, verdict })
}

// The verdict on the document in the case of its files.
fn verdict_answer(alloc: Global, inputs: &Inputs) -> Result<Answer, AllocError>
    requires each { length inputs.now.files.bindings.of ≡ length inputs.now.files.region.servers }
    requires shape { (case : Case) → length (server_names inputs.now.files.region.servers) ≡ length case.places
        → length (reservation_names inputs.now.files.requests.list) ≡ length case.wants → HasShape case inputs.now.document }
    ensures { IfOk result (λ answer. IsVerdictOn inputs.now (seen answer)) }
{
    let judged = judge(alloc, inputs)?;
    printed(alloc, inputs, judged.verdict)
}

/// What `check` answers to the bytes of its files: the note on the first that is not valid, or the verdict on the
/// document, in the case that the region, the requests and the bindings join to.
pub fn check_answer(
    alloc: Global,
    inventory: &[u8],
    requests: &[u8],
    bindings: &[u8],
    plan: &[u8],
) -> Result<Answer, AllocError>
    requires inventory { length inventory.now ≤ 64 * 2 ^ 20 }
    requires requests { length requests.now ≤ 64 * 2 ^ 20 }
    requires bindings { length bindings.now ≤ 64 * 2 ^ 20 }
    requires plan { length plan.now ≤ 64 * 2 ^ 20 }
    ensures { IfOk result (λ answer. CheckAnswers inventory.now requests.now bindings.now plan.now (seen answer)) }
{
    match read_inputs(alloc, inventory, requests, bindings, plan) {
        Ok(inputs) => verdict_answer(alloc, &inputs),
        Err(InputFault::Invalid(note)) => Ok(Answer::Invalid { note }),
        Err(InputFault::Memory) => Err(AllocError),
    }
}
