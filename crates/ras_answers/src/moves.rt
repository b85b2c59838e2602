ghost use Rattle.std.specs.Prelude.{◌≡◌, ◌<◌, ◌≤◌, ◌*◌, ◌^◌, IfOk, IfSome, IsTrue, length, true};
ghost use Rattle.std.specs.List.{list_all};
ghost use Rattle.ras_inventory.specs.RegionRule.{server_names};
ghost use Rattle.ras_requests.specs.RequestsRule.{reservation_names};
ghost use Rattle.plan_model.specs.Allowed.{fits, serves};
ghost use Rattle.plan_model.specs.Units.{servers_with_places};
ghost use Rattle.plan_model.specs.declared.cases.Case.{Case};
ghost use Rattle.plan_checker.specs.Shape.{HasShape};
ghost use Rattle.plan_checker.specs.Target.{target_of};
ghost use Rattle.online_mover.specs.Events.{event_within};
ghost use Rattle.ras_answers.specs.Answered.{seen};
ghost use Rattle.ras_answers.specs.Inputs.{events_read};
ghost use Rattle.ras_answers.specs.Move.{MoveAnswers, MovesTo};
ghost use Rattle.ras_answers.specs.Target.{ByLines, IsByVerdict, ToTarget};

use crate::all::Inputs;
use crate::answer::{Answer, Ending};
use crate::check::{judge, printed, read_inputs};
use crate::inputs::{InputFault, events_in};
use crate::targets::no_target;
use move_text::move_text;
use online_mover::Timed;
use plan_checker::{Verdict, target_of};
use plan_model::Case;
use ras_table::List;
use std::alloc::{AllocError, Global};

// The moves to where an accepted document says.
fn moves_to(
    alloc: Global,
    inputs: &Inputs,
    case: &Case,
    at_once: u32,
    events: &List<Timed>,
) -> Result<Answer, AllocError>
    requires servers { length case.now.places ≡ length inputs.now.files.region.servers }
    requires fitting { IfSome (target_of inputs.now.document) (λ target. IsTrue (fits case.now target)) }
    requires serving { IfSome (target_of inputs.now.document) (λ target. IsTrue (list_all (serves case.now) (servers_with_places case.now target))) }
    requires some { 1 ≤ at_once }
    requires few { at_once ≤ 64 }
    requires there { list_all (λ timed. event_within (length inputs.now.files.region.servers) timed.event) events.now ≡ true }
    ensures { IfOk result (λ answer. ToTarget (MovesTo at_once inputs.now events.now) case.now (target_of inputs.now.document) (seen answer)) }
{
    let Some(target) = target_of(&inputs.document) else {
        return no_target(alloc);
    };
    let text = move_text(
        alloc,
        &inputs.files.region,
        &inputs.files.requests,
        case,
        target,
        at_once,
        events,
    )?;
    Ok(Answer::Printed {
        ending: Ending::Done,
        text,
    })
}

// The moves, or the verdict on a document that is not accepted.
fn moves_answer(
    alloc: Global,
    inputs: &Inputs,
    at_once: u32,
    events: &List<Timed>,
) -> Result<Answer, AllocError>
    requires each { length inputs.now.files.bindings.of ≡ length inputs.now.files.region.servers }
    requires shape { (case : Case) → length (server_names inputs.now.files.region.servers) ≡ length case.places
        → length (reservation_names inputs.now.files.requests.list) ≡ length case.wants → HasShape case inputs.now.document }
    requires some { 1 ≤ at_once }
    requires few { at_once ≤ 64 }
    requires there { list_all (λ timed. event_within (length inputs.now.files.region.servers) timed.event) events.now ≡ true }
    ensures { IfOk result (λ answer. IsByVerdict (MovesTo at_once inputs.now events.now) inputs.now (seen answer)) }
{
    let judged = judge(alloc, inputs)?;
    match judged.verdict {
        Verdict::Yes => moves_to(alloc, inputs, &judged.case, at_once, events),
        Verdict::No(_) => printed(alloc, inputs, judged.verdict),
    }
}

// The moves over the events of a file, or the note on their first fault.
fn moves_over(
    alloc: Global,
    inputs: &Inputs,
    at_once: u32,
    events: &[u8],
) -> Result<Answer, AllocError>
    requires each { length inputs.now.files.bindings.of ≡ length inputs.now.files.region.servers }
    requires shape { (case : Case) → length (server_names inputs.now.files.region.servers) ≡ length case.places
        → length (reservation_names inputs.now.files.requests.list) ≡ length case.wants → HasShape case inputs.now.document }
    requires events { length events.now ≤ 64 * 2 ^ 20 }
    requires some { 1 ≤ at_once }
    requires few { at_once ≤ 64 }
    ensures { IfOk result (λ answer. ByLines (MovesTo at_once) inputs.now (events_read (server_names inputs.now.files.region.servers) events.now) (seen answer)) }
{
    match events_in(alloc, &inputs.files.region, events) {
        Ok(events) => moves_answer(alloc, inputs, at_once, &events),
        Err(InputFault::Invalid(note)) => Ok(Answer::Invalid { note }),
        Err(InputFault::Memory) => Err(AllocError),
    }
}

/// What `move` answers to the bytes of its files: the note on the first that is not valid; or the verdict on a document
/// that is not accepted, in the case that the region, the requests and the bindings join to; or that the document has no
/// assignment; or the text of the moves to it over the events, with at most `at_once` servers in flight.
pub fn move_answer(
    alloc: Global,
    inventory: &[u8],
    requests: &[u8],
    bindings: &[u8],
    plan: &[u8],
    events: &[u8],
    at_once: u32,
) -> Result<Answer, AllocError>
    requires inventory { length inventory.now ≤ 64 * 2 ^ 20 }
    requires requests { length requests.now ≤ 64 * 2 ^ 20 }
    requires bindings { length bindings.now ≤ 64 * 2 ^ 20 }
    requires plan { length plan.now ≤ 64 * 2 ^ 20 }
    requires events { length events.now ≤ 64 * 2 ^ 20 }
    requires some { 1 ≤ at_once }
    requires few { at_once ≤ 64 }
    ensures { IfOk result (λ answer. MoveAnswers inventory.now requests.now bindings.now plan.now events.now at_once (seen answer)) }
{
    match read_inputs(alloc, inventory, requests, bindings, plan) {
        Ok(inputs) => moves_over(alloc, &inputs, at_once, events),
        Err(InputFault::Invalid(note)) => Ok(Answer::Invalid { note }),
        Err(InputFault::Memory) => Err(AllocError),
    }
}
