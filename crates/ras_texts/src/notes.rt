//! The notes on files that are not valid, and on programs that are too large.
ghost use Rattle.std.specs.Prelude.{◌≡◌, IfOk, string_bytes};
ghost use Rattle.ras_texts.specs.Notes.{bindings_note, bindings_why, columns_note, document_note, document_why, events_note, events_why, failures_note, failures_why, place_text, region_note, region_why, requests_note, requests_why, row_text, rows_note, script_note};

use online_mover::EventsWhy;
use plan_document::{DocPlace, DocWhy};
use ras_inventory::{BindingsWhy, RegionWhy};
use ras_requests::RequestsWhy;
use ras_table::RowFault;
use spare_pool::FailuresWhy;
use std::alloc::{AllocError, Global};

// Why a record is no row.
fn row_text(alloc: Global, fault: &RowFault) -> Result<String, AllocError>
    ensures { IfOk result (λ text. string_bytes text ≡ row_text fault.now) }
{
    match *fault {
        RowFault::Columns(found) => format!(in alloc; "columns {found}"),
        RowFault::Bad(column) => format!(in alloc; "column {column}"),
        RowFault::Memory => String::from_str(alloc, "memory"),
    }
}

// Why a line of an inventory is refused.
fn region_why(alloc: Global, why: &RegionWhy) -> Result<String, AllocError>
    ensures { IfOk result (λ text. string_bytes text ≡ region_why why.now) }
{
    match why {
        RegionWhy::Head => String::from_str(alloc, "head"),
        RegionWhy::Row(fault) => row_text(alloc, fault),
        RegionWhy::Twice => String::from_str(alloc, "twice"),
        RegionWhy::RackMoved => String::from_str(alloc, "rack moved"),
        RegionWhy::BoardMoved => String::from_str(alloc, "switchboard moved"),
        RegionWhy::Many => String::from_str(alloc, "many"),
    }
}

/// The note on an inventory: the line, and why it is refused.
pub fn region_note(alloc: Global, line: u32, why: &RegionWhy) -> Result<String, AllocError>
    ensures { IfOk result (λ text. string_bytes text ≡ region_note line why.now) }
{
    let why = region_why(alloc, why)?;
    format!(in alloc; "ras: inventory: line {line}: {why}")
}

// Why a line of bindings is refused.
fn bindings_why(alloc: Global, why: &BindingsWhy) -> Result<String, AllocError>
    ensures { IfOk result (λ text. string_bytes text ≡ bindings_why why.now) }
{
    match why {
        BindingsWhy::Head => String::from_str(alloc, "head"),
        BindingsWhy::Row(fault) => row_text(alloc, fault),
        BindingsWhy::Unknown => String::from_str(alloc, "unknown"),
        BindingsWhy::Twice => String::from_str(alloc, "twice"),
    }
}

/// The note on bindings: the line, and why it is refused.
pub fn bindings_note(alloc: Global, line: u32, why: &BindingsWhy) -> Result<String, AllocError>
    ensures { IfOk result (λ text. string_bytes text ≡ bindings_note line why.now) }
{
    let why = bindings_why(alloc, why)?;
    format!(in alloc; "ras: bindings: line {line}: {why}")
}

// Why requests are refused.
fn requests_why(why: RequestsWhy) -> &'static str
    ensures { result.now ≡ requests_why why }
{
    match why {
        RequestsWhy::NotJson => "not json",
        RequestsWhy::Shape => "shape",
        RequestsWhy::Format => "format",
        RequestsWhy::Range => "range",
        RequestsWhy::Twice => "twice",
        RequestsWhy::Many => "many",
    }
}

/// The note on requests: 0 for the whole file or the number of the reservation, and why they are refused.
pub fn requests_note(alloc: Global, place: u32, why: RequestsWhy) -> Result<String, AllocError>
    ensures { IfOk result (λ text. string_bytes text ≡ requests_note place why) }
{
    let why = requests_why(why);
    format!(in alloc; "ras: requests: place {place}: {why}")
}

// The place of a document's fault.
fn place_text(alloc: Global, place: DocPlace) -> Result<String, AllocError>
    ensures { IfOk result (λ text. string_bytes text ≡ place_text place) }
{
    match place {
        DocPlace::Top => String::from_str(alloc, "top"),
        DocPlace::Region => String::from_str(alloc, "region"),
        DocPlace::RegionNode(node) => format!(in alloc; "region node {node}"),
        DocPlace::Rack => String::from_str(alloc, "rack"),
        DocPlace::RackNode(node) => format!(in alloc; "rack node {node}"),
    }
}

// Why a document is refused.
fn document_why(why: DocWhy) -> &'static str
    ensures { result.now ≡ document_why why }
{
    match why {
        DocWhy::NotJson => "not json",
        DocWhy::Shape => "shape",
        DocWhy::Format => "format",
        DocWhy::Range => "range",
        DocWhy::Name => "name",
    }
}

/// The note on a plan document: the place of its fault, and why it is refused.
pub fn document_note(alloc: Global, place: DocPlace, why: DocWhy) -> Result<String, AllocError>
    ensures { IfOk result (λ text. string_bytes text ≡ document_note place why) }
{
    let place = place_text(alloc, place)?;
    let why = document_why(why);
    format!(in alloc; "ras: plan: {place}: {why}")
}

// Why a line of events is refused.
fn events_why(alloc: Global, why: &EventsWhy) -> Result<String, AllocError>
    ensures { IfOk result (λ text. string_bytes text ≡ events_why why.now) }
{
    match why {
        EventsWhy::Head => String::from_str(alloc, "head"),
        EventsWhy::Row(fault) => row_text(alloc, fault),
        EventsWhy::Word => String::from_str(alloc, "word"),
        EventsWhy::Unknown => String::from_str(alloc, "unknown"),
        EventsWhy::Order => String::from_str(alloc, "order"),
        EventsWhy::Many => String::from_str(alloc, "many"),
    }
}

/// The note on events: the line, and why it is refused.
pub fn events_note(alloc: Global, line: u32, why: &EventsWhy) -> Result<String, AllocError>
    ensures { IfOk result (λ text. string_bytes text ≡ events_note line why.now) }
{
    let why = events_why(alloc, why)?;
    format!(in alloc; "ras: events: line {line}: {why}")
}

/// The note on a script of rounds: the line, and why it is refused, in the words of events.
pub fn script_note(alloc: Global, line: u32, why: &EventsWhy) -> Result<String, AllocError>
    ensures { IfOk result (λ text. string_bytes text ≡ script_note line why.now) }
{
    let why = events_why(alloc, why)?;
    format!(in alloc; "ras: script: line {line}: {why}")
}

// Why a line of failures is refused.
fn failures_why(alloc: Global, why: &FailuresWhy) -> Result<String, AllocError>
    ensures { IfOk result (λ text. string_bytes text ≡ failures_why why.now) }
{
    match why {
        FailuresWhy::Head => String::from_str(alloc, "head"),
        FailuresWhy::Row(fault) => row_text(alloc, fault),
        FailuresWhy::Word => String::from_str(alloc, "word"),
        FailuresWhy::Unknown => String::from_str(alloc, "unknown"),
        FailuresWhy::Order => String::from_str(alloc, "order"),
        FailuresWhy::Many => String::from_str(alloc, "many"),
    }
}

/// The note on failures: the line, and why it is refused.
pub fn failures_note(alloc: Global, line: u32, why: &FailuresWhy) -> Result<String, AllocError>
    ensures { IfOk result (λ text. string_bytes text ≡ failures_note line why.now) }
{
    let why = failures_why(alloc, why)?;
    format!(in alloc; "ras: failures: line {line}: {why}")
}

/// The note on a program with too many columns.
pub fn columns_note(alloc: Global, columns: u32) -> Result<String, AllocError>
    ensures { IfOk result (λ text. string_bytes text ≡ columns_note columns) }
{
    format!(in alloc; "ras: program: columns {columns}")
}

/// The note on a program with too many rows.
pub fn rows_note(alloc: Global, rows: u32) -> Result<String, AllocError>
    ensures { IfOk result (λ text. string_bytes text ≡ rows_note rows) }
{
    format!(in alloc; "ras: program: rows {rows}")
}
