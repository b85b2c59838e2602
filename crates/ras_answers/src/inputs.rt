ghost use Rattle.std.specs.Prelude.{◌≡◌, ◌<◌, ◌≤◌, ◌*◌, ◌^◌, ◌++◌, codes, IfOk, IfSome, MatchResult, None, length, string_bytes, true};
ghost use Rattle.std.specs.List.{list_all};
ghost use Rattle.online_mover.specs.Events.{event_within};
ghost use Rattle.spare_pool.specs.Steps.{change_within};
ghost use Rattle.ras_table.specs.Answers.{Gives};
ghost use Rattle.ras_inventory.specs.RegionRule.{server_names};
ghost use Rattle.ras_inventory.specs.Regions.{seen as seen_region};
ghost use Rattle.ras_requests.specs.RequestsRule.{reservation_names};
ghost use Rattle.ras_requests.specs.Requested.{seen as seen_requests};
ghost use Rattle.plan_document.specs.Documents.{seen_document};
ghost use Rattle.ras_answers.specs.Inputs.{GivesCaseFiles, bindings_read, document_read, events_read, failures_read, inventory_read, requests_read, script_read, told};
ghost use Rattle.rounds_text.specs.Ready.{AreThere};

use crate::all::CaseFiles;
use online_mover::{EventsFault, Timed, read_events};
use plan_document::{DocFault, Document, read_document};
use ras_inventory::{Bindings, BindingsFault, Region, RegionFault, read_bindings, read_region};
use ras_requests::{Requests, RequestsFault, read_requests};
use ras_rounds::{Entry, ScriptFault, read_script};
use ras_table::List;
use ras_texts::{
    bindings_note, document_note, events_note, failures_note, region_note, requests_note,
    script_note,
};
use spare_pool::{Failure, FailuresFault, read_failures};
use std::alloc::{AllocError, Global};
use thiserror::Error;

/// Why files were not read.
#[derive(Debug, Drop, Error)]
pub enum InputFault {
    /// A file is not valid. The note on its first fault, which ends with a line feed.
    #[error("{0}")]
    Invalid(String),
    /// Memory ran out.
    #[error("out of memory")]
    Memory,
}

// A note as a line.
fn line_of(note: Result<String, AllocError>) -> InputFault
    ensures { MatchResult note (λ text. IfSome (told result) (λ line. line ≡ string_bytes text ++ codes "\n")) (λ _. told result ≡ None) }
{
    let Ok(mut line) = note else {
        return InputFault::Memory;
    };
    match line.push_str("\n") {
        Ok(()) => InputFault::Invalid(line),
        Err(_) => InputFault::Memory,
    }
}

/// The region of an inventory, or the note on its first fault.
pub fn region_in(alloc: Global, bytes: &[u8]) -> Result<Region, InputFault>
    requires { length bytes.now ≤ 64 * 2 ^ 20 }
    ensures { Gives seen_region told result (inventory_read bytes.now) }
{
    match read_region(alloc, bytes) {
        Ok(region) => Ok(region),
        Err(RegionFault::At { line, why }) => Err(line_of(region_note(alloc, line, &why))),
        Err(RegionFault::Memory) => Err(InputFault::Memory),
    }
}

/// The requests of a file, or the note on its first fault.
pub fn requests_in(alloc: Global, bytes: &[u8]) -> Result<Requests, InputFault>
    requires { length bytes.now ≤ 64 * 2 ^ 20 }
    ensures { Gives seen_requests told result (requests_read bytes.now) }
{
    match read_requests(alloc, bytes) {
        Ok(requests) => Ok(requests),
        Err(RequestsFault::At { place, why }) => Err(line_of(requests_note(alloc, place, why))),
        Err(RequestsFault::Memory) => Err(InputFault::Memory),
    }
}

/// The bindings of a file over a region, or the note on their first fault.
pub fn bindings_in(alloc: Global, region: &Region, bytes: &[u8]) -> Result<Bindings, InputFault>
    requires { length bytes.now ≤ 64 * 2 ^ 20 }
    ensures bindings { Gives (λ bindings. bindings.of) told result (bindings_read (server_names region.now.servers) bytes.now) }
    ensures each { IfOk result (λ bindings. length bindings.of ≡ length region.now.servers) }
{
    match read_bindings(alloc, region, bytes) {
        Ok(bindings) => Ok(bindings),
        Err(BindingsFault::At { line, why }) => Err(line_of(bindings_note(alloc, line, &why))),
        Err(BindingsFault::Memory) => Err(InputFault::Memory),
    }
}

/// What the files of a case say, or the note on the first that is not valid.
pub fn read_case(
    alloc: Global,
    inventory: &[u8],
    requests: &[u8],
    bindings: &[u8],
) -> Result<CaseFiles, InputFault>
    requires inventory { length inventory.now ≤ 64 * 2 ^ 20 }
    requires requests { length requests.now ≤ 64 * 2 ^ 20 }
    requires bindings { length bindings.now ≤ 64 * 2 ^ 20 }
    ensures files { GivesCaseFiles inventory.now requests.now bindings.now result }
    ensures each { IfOk result (λ files. length files.bindings.of ≡ length files.region.servers) }
{
    let region = match region_in(alloc, inventory) {
        Ok(region) => region,
        Err(fault) => return Err(fault),
    };
    let requests = match requests_in(alloc, requests) {
        Ok(requests) => requests,
        Err(fault) => return Err(fault),
    };
    match bindings_in(alloc, &region, bindings) {
        Ok(bindings) => Ok(CaseFiles {
            region,
            requests,
            bindings,
        }),
        Err(fault) => Err(fault),
    }
}

/// The document of a file over a region and requests, or the note on its first fault.
pub fn document_in(
    alloc: Global,
    region: &Region,
    requests: &Requests,
    bytes: &[u8],
) -> Result<Document, InputFault>
    requires { length bytes.now ≤ 64 * 2 ^ 20 }
    ensures { Gives seen_document told result (document_read (server_names region.now.servers) (reservation_names requests.now.list) bytes.now) }
{
    match read_document(alloc, region, requests, bytes) {
        Ok(document) => Ok(document),
        Err(DocFault::At { place, why }) => Err(line_of(document_note(alloc, place, why))),
        Err(DocFault::Memory) => Err(InputFault::Memory),
    }
}

/// The events of a file over a region, or the note on their first fault.
pub fn events_in(alloc: Global, region: &Region, bytes: &[u8]) -> Result<List<Timed>, InputFault>
    requires { length bytes.now ≤ 64 * 2 ^ 20 }
    ensures events { Gives (λ events. events) told result (events_read (server_names region.now.servers) bytes.now) }
    ensures there { IfOk result (λ events. list_all (λ timed. event_within (length region.now.servers) timed.event) events ≡ true) }
{
    match read_events(alloc, region, bytes) {
        Ok(events) => Ok(events),
        Err(EventsFault::At { line, why }) => Err(line_of(events_note(alloc, line, &why))),
        Err(EventsFault::Memory) => Err(InputFault::Memory),
    }
}

/// The entries of a script over a region, or the note on their first fault.
pub fn script_in(alloc: Global, region: &Region, bytes: &[u8]) -> Result<List<Entry>, InputFault>
    requires { length bytes.now ≤ 64 * 2 ^ 20 }
    ensures entries { Gives (λ entries. entries) told result (script_read (server_names region.now.servers) bytes.now) }
    ensures there { IfOk result (AreThere (length region.now.servers)) }
{
    match read_script(alloc, region, bytes) {
        Ok(entries) => Ok(entries),
        Err(ScriptFault::At { line, why }) => Err(line_of(script_note(alloc, line, &why))),
        Err(ScriptFault::Memory) => Err(InputFault::Memory),
    }
}

/// The failures of a file over a region, or the note on their first fault.
pub fn failures_in(
    alloc: Global,
    region: &Region,
    bytes: &[u8],
) -> Result<List<Failure>, InputFault>
    requires { length bytes.now ≤ 64 * 2 ^ 20 }
    ensures failures { Gives (λ failures. failures) told result (failures_read (server_names region.now.servers) bytes.now) }
    ensures there { IfOk result (λ failures. list_all (λ failure. change_within (length region.now.servers) failure.change) failures ≡ true) }
{
    match read_failures(alloc, region, bytes) {
        Ok(failures) => Ok(failures),
        Err(FailuresFault::At { line, why }) => Err(line_of(failures_note(alloc, line, &why))),
        Err(FailuresFault::Memory) => Err(InputFault::Memory),
    }
}
