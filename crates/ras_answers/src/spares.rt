ghost use Rattle.std.specs.Prelude.{◌≡◌, ◌<◌, ◌≤◌, ◌*◌, ◌^◌, IfOk, IfSome, IsTrue, length, true};
ghost use Rattle.std.specs.List.{list_all};
ghost use Rattle.ras_inventory.specs.RegionRule.{server_names};
ghost use Rattle.ras_requests.specs.RequestsRule.{reservation_names};
ghost use Rattle.plan_model.specs.Allowed.{fits, serves};
ghost use Rattle.plan_model.specs.Units.{servers_with_places};
ghost use Rattle.plan_model.specs.declared.cases.Case.{Case};
ghost use Rattle.plan_checker.specs.Shape.{HasShape};
ghost use Rattle.plan_checker.specs.Target.{target_of};
ghost use Rattle.spare_pool.specs.Steps.{change_within};
ghost use Rattle.ras_answers.specs.Answered.{seen};
ghost use Rattle.ras_answers.specs.Inputs.{failures_read};
ghost use Rattle.ras_answers.specs.Spare.{ReplacesFrom, SpareAnswers};
ghost use Rattle.ras_answers.specs.Target.{ByLines, IsByVerdict, ToTarget};

use crate::all::Inputs;
use crate::answer::{Answer, Ending};
use crate::check::{judge, printed, read_inputs};
use crate::inputs::{InputFault, failures_in};
use crate::targets::no_target;
use plan_checker::{Verdict, target_of};
use plan_model::Case;
use ras_table::List;
use spare_pool::Failure;
use spare_text::spare_text;
use std::alloc::{AllocError, Global};

// The text of the replacements from where an accepted document says.
fn replaces_from(
    alloc: Global,
    inputs: &Inputs,
    case: &Case,
    failures: &List<Failure>,
) -> Result<Answer, AllocError>
    requires servers { length case.now.places ≡ length inputs.now.files.region.servers }
    requires fitting { IfSome (target_of inputs.now.document) (λ target. IsTrue (fits case.now target)) }
    requires serving { IfSome (target_of inputs.now.document) (λ target. IsTrue (list_all (serves case.now) (servers_with_places case.now target))) }
    requires there { list_all (λ failure. change_within (length inputs.now.files.region.servers) failure.change) failures.now ≡ true }
    ensures { IfOk result (λ answer. ToTarget (ReplacesFrom inputs.now failures.now) case.now (target_of inputs.now.document) (seen answer)) }
{
    let Some(target) = target_of(&inputs.document) else {
        return no_target(alloc);
    };
    let text = spare_text(
        alloc,
        &inputs.files.region,
        &inputs.files.requests,
        case,
        target,
        failures,
    )?;
    Ok(Answer::Printed {
        ending: Ending::Done,
        text,
    })
}

// The replacements, or the verdict on a document that is not accepted.
fn spares_answer(
    alloc: Global,
    inputs: &Inputs,
    failures: &List<Failure>,
) -> Result<Answer, AllocError>
    requires each { length inputs.now.files.bindings.of ≡ length inputs.now.files.region.servers }
    requires shape { (case : Case) → length (server_names inputs.now.files.region.servers) ≡ length case.places
        → length (reservation_names inputs.now.files.requests.list) ≡ length case.wants → HasShape case inputs.now.document }
    requires there { list_all (λ failure. change_within (length inputs.now.files.region.servers) failure.change) failures.now ≡ true }
    ensures { IfOk result (λ answer. IsByVerdict (ReplacesFrom inputs.now failures.now) inputs.now (seen answer)) }
{
    let judged = judge(alloc, inputs)?;
    match judged.verdict {
        Verdict::Yes => replaces_from(alloc, inputs, &judged.case, failures),
        Verdict::No(_) => printed(alloc, inputs, judged.verdict),
    }
}

// The replacements over the failures of a file, or the note on their first fault.
fn spares_over(alloc: Global, inputs: &Inputs, failures: &[u8]) -> Result<Answer, AllocError>
    requires each { length inputs.now.files.bindings.of ≡ length inputs.now.files.region.servers }
    requires shape { (case : Case) → length (server_names inputs.now.files.region.servers) ≡ length case.places
        → length (reservation_names inputs.now.files.requests.list) ≡ length case.wants → HasShape case inputs.now.document }
    requires failures { length failures.now ≤ 64 * 2 ^ 20 }
    ensures { IfOk result (λ answer. ByLines ReplacesFrom inputs.now (failures_read (server_names inputs.now.files.region.servers) failures.now) (seen answer)) }
{
    match failures_in(alloc, &inputs.files.region, failures) {
        Ok(failures) => spares_answer(alloc, inputs, &failures),
        Err(InputFault::Invalid(note)) => Ok(Answer::Invalid { note }),
        Err(InputFault::Memory) => Err(AllocError),
    }
}

/// What `spare` answers to the bytes of its files: the note on the first that is not valid; or the verdict on a document
/// that is not accepted, in the case that the region, the requests and the bindings join to; or that the document has no
/// assignment; or the text of what each failure and repair leads to, where the servers serve what it says.
pub fn spare_answer(
    alloc: Global,
    inventory: &[u8],
    requests: &[u8],
    bindings: &[u8],
    plan: &[u8],
    failures: &[u8],
) -> Result<Answer, AllocError>
    requires inventory { length inventory.now ≤ 64 * 2 ^ 20 }
    requires requests { length requests.now ≤ 64 * 2 ^ 20 }
    requires bindings { length bindings.now ≤ 64 * 2 ^ 20 }
    requires plan { length plan.now ≤ 64 * 2 ^ 20 }
    requires failures { length failures.now ≤ 64 * 2 ^ 20 }
    ensures { IfOk result (λ answer. SpareAnswers inventory.now requests.now bindings.now plan.now failures.now (seen answer)) }
{
    match read_inputs(alloc, inventory, requests, bindings, plan) {
        Ok(inputs) => spares_over(alloc, &inputs, failures),
        Err(InputFault::Invalid(note)) => Ok(Answer::Invalid { note }),
        Err(InputFault::Memory) => Err(AllocError),
    }
}
