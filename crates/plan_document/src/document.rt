ghost use Rattle.std.specs.Prelude.{◌≡◌, ◌≤◌, ◌<◌, ◌*◌, ◌^◌, IfOk, Some, None, [], option_map, option_and_then, is_some, length, codes};
ghost use Rattle.csv.specs.Reading.{strip_bom};
ghost use Rattle.serde_json.specs.Find.{get, as_object};
ghost use Rattle.serde_json.specs.View.{view};
ghost use Rattle.ras_table.specs.Answers.{Gives};
ghost use Rattle.ras_inventory.specs.RegionRule.{server_names};
ghost use Rattle.ras_requests.specs.RequestsRule.{reservation_names};
ghost use Rattle.plan_document.specs.Sizes.{size};
ghost use Rattle.plan_document.specs.Members.{is_object_of};
ghost use Rattle.plan_document.specs.Parts.{seen_part};
ghost use Rattle.plan_document.specs.Writable.{CanBeWritten};
ghost use Rattle.plan_document.specs.Faults.{told};
ghost use Rattle.plan_document.specs.Documents.{json_of, ValueOf, answer_named, grouping_named, text_at, head_of, has_member, is_format, region_has_assignment, form_of, may_have_rack, rack_allowed, top_names, top_members, top_shape, head_fits, top_of, ranged_head, named_top, region_in, rack_in, seen_rack, seen_document, document_in, document_of};

use crate::fault::{DocFault, DocPlace, DocWhy};
use crate::part::{Form, Part, RackPart, is_object_of, needed_whole, part_at};
use crate::protections::{protection_fits, protection_shaped, protections_of};
use plan_model::Grouping;
use ras_inventory::Region;
use ras_requests::{Protection, Requests};
use ras_table::{List, without_mark};
use serde_json::Value;
use std::alloc::Global;

/// What a document answers.
#[derive(Clone, Copy, Debug)]
pub enum Answer {
    /// Each part has a plan within the wanted gap.
    Plan,
    /// No assignment is allowed in the region.
    Infeasible,
    /// The budget of nodes was spent before the wanted gap was reached.
    Limit,
}

/// A plan with what shows how good it is, or what shows that there is none.
#[derive(Debug, Drop)]
pub struct Document {
    /// What is answered.
    pub answer: Answer,
    /// How servers are grouped in the programs that the trees speak of.
    pub grouping: Grouping,
    /// The wanted gap between a plan's cost and the least cost, 0 to 10^12.
    pub gap: u64,
    /// The budget of nodes for each tree, 1 to 20,000.
    pub nodes: u32,
    /// For how many reservations at most racks are planned, 0 to 64.
    pub racks: u32,
    /// What is shown for the whole region.
    pub region: Part,
    /// What is shown for the racks of the chosen reservations, where that was planned.
    pub rack: Option<RackPart>,
    /// What each reservation survives by what is planned, one for each reservation of the requests.
    pub protection: List<Protection>,
}

/// The members of the top that are not parts.
#[derive(Clone, Copy, Debug)]
pub struct Head {
    /// What is answered.
    pub answer: Answer,
    /// The wanted gap.
    pub gap: u64,
    /// How servers are grouped.
    pub grouping: Grouping,
    /// The budget of nodes.
    pub nodes: u64,
    /// For how many reservations at most racks are planned.
    pub racks: u64,
}

// The value that bytes are.
fn value_of(alloc: Global, bytes: &[u8]) -> Result<Value, DocFault>
    requires { length bytes.now ≤ 64 * 2 ^ 20 }
    ensures is { ValueOf result (json_of bytes.now) }
    ensures small { IfOk result (λ value. size (view value) < 2 ^ 32) }
{
    match Value::from_slice(alloc, bytes) {
        Ok(value) => Ok(value),
        Err(error) => {
            if error.is_memory() {
                Err(DocFault::Memory)
            } else {
                Err(DocFault::At {
                    place: DocPlace::Top,
                    why: DocWhy::NotJson,
                })
            }
        }
    }
}

// A member that is a text.
fn text_at<'v>(value: &'v Value, name: &str) -> Option<&'v str>
    ensures { option_map (λ t. t.now) result ≡ text_at name.now (view value.now) }
{
    match value.get(name) {
        Some(found) => found.as_str(),
        None => None,
    }
}

// The answer of this name.
fn answer_named(text: &str) -> Option<Answer>
    ensures { result ≡ answer_named text.now }
{
    if text.as_bytes() == "plan".as_bytes() {
        Some(Answer::Plan)
    } else if text.as_bytes() == "infeasible".as_bytes() {
        Some(Answer::Infeasible)
    } else if text.as_bytes() == "limit".as_bytes() {
        Some(Answer::Limit)
    } else {
        None
    }
}

// The grouping of this name.
fn grouping_named(text: &str) -> Option<Grouping>
    ensures { result ≡ grouping_named text.now }
{
    if text.as_bytes() == "single".as_bytes() {
        Some(Grouping::Single)
    } else if text.as_bytes() == "class".as_bytes() {
        Some(Grouping::Class)
    } else {
        None
    }
}

// The answer of a document.
fn answer_in(value: &Value) -> Option<Answer>
    ensures { result ≡ option_and_then answer_named (text_at (codes "answer") (view value.now)) }
{
    match text_at(value, "answer") {
        Some(text) => answer_named(text),
        None => None,
    }
}

// The grouping of a document.
fn grouping_in(value: &Value) -> Option<Grouping>
    ensures { result ≡ option_and_then grouping_named (text_at (codes "grouping") (view value.now)) }
{
    match text_at(value, "grouping") {
        Some(text) => grouping_named(text),
        None => None,
    }
}

// The members of the top that are not parts.
fn head_of(value: &Value) -> Option<Head>
    ensures { result ≡ head_of (view value.now) }
{
    let answer = answer_in(value)?;
    let gap = needed_whole(value, "gap")?;
    let grouping = grouping_in(value)?;
    let nodes = needed_whole(value, "nodes")?;
    let racks = needed_whole(value, "racks")?;
    Some(Head {
        answer,
        gap,
        grouping,
        nodes,
        racks,
    })
}

// Whether there is a member of this name.
fn has_member(value: &Value, name: &str) -> bool
    ensures { result ≡ has_member name.now (view value.now) }
{
    value.get(name).is_some()
}

// Whether the region part has an assignment.
fn region_has_assignment(value: &Value) -> bool
    ensures { result ≡ region_has_assignment (view value.now) }
{
    match value.get("region") {
        Some(region) => has_member(region, "assignment"),
        None => false,
    }
}

// The form of the region part.
fn form_of(answer: Answer, assigned: bool) -> Form
    ensures { result ≡ form_of answer assigned }
{
    match answer {
        Answer::Plan => Form::Planned,
        Answer::Infeasible => Form::Bare,
        Answer::Limit => {
            if assigned {
                Form::Planned
            } else {
                Form::Bounded
            }
        }
    }
}

// Whether a rack part may stand beside a region part of this form.
fn may_have_rack(form: Form) -> bool
    ensures { result ≡ may_have_rack form }
{
    match form {
        Form::Planned => true,
        Form::Bounded => false,
        Form::Bare => false,
    }
}

// Whether a rack part stands only where it may.
fn rack_allowed(value: &Value, head: Head) -> bool
    ensures { result ≡ rack_allowed (view value.now) head }
{
    !has_member(value, "rack") || may_have_rack(form_of(head.answer, region_has_assignment(value)))
}

// Whether the format is this one.
fn is_format(value: &Value, format: u64) -> bool
    ensures { result ≡ is_format format (view value.now) }
{
    match needed_whole(value, "format") {
        Some(found) => found == format,
        None => false,
    }
}

// Whether the top has no other members than those of its format.
fn has_top_names(second: bool, value: &Value) -> bool
    ensures { result ≡ is_object_of (top_names second) (as_object (view value.now)) }
{
    if second {
        is_object_of(
            value,
            &[
                "answer",
                "format",
                "gap",
                "grouping",
                "nodes",
                "protection",
                "rack",
                "racks",
                "region",
            ],
        )
    } else {
        is_object_of(
            value,
            &[
                "answer", "format", "gap", "grouping", "nodes", "rack", "racks", "region",
            ],
        )
    }
}

// Whether the top has the members of its format that no answer changes.
fn top_members(second: bool, value: &Value) -> bool
    ensures { result ≡ top_members second (view value.now) }
{
    has_top_names(second, value)
        && has_member(value, "region")
        && needed_whole(value, "format").is_some()
        && protection_shaped(second, value)
}

// The members of the top that are not parts, if the top has its shape.
fn top_shape(value: &Value) -> Option<Head>
    ensures { result ≡ top_shape (view value.now) }
{
    if !top_members(is_format(value, 2), value) {
        return None;
    }
    let head = head_of(value)?;
    if rack_allowed(value, head) {
        Some(head)
    } else {
        None
    }
}

// Whether the numbers of the top are in their ranges.
fn head_fits(head: Head) -> bool
    ensures { result ≡ head_fits head }
{
    head.gap <= 1_000_000_000_000 && 1 <= head.nodes && head.nodes <= 20_000 && head.racks <= 64
}

// The members of the top that are not parts, or the first fault of the top.
fn top_of(value: &Value) -> Result<Head, DocFault>
    ensures is { Gives (λ h. h) told result (top_of (view value.now)) }
    ensures nodes { IfOk result (λ h. h.nodes ≤ 20000) }
    ensures racks { IfOk result (λ h. h.racks ≤ 64) }
{
    let Some(head) = top_shape(value) else {
        return Err(DocFault::At {
            place: DocPlace::Top,
            why: DocWhy::Shape,
        });
    };
    if !is_format(value, 1) && !is_format(value, 2) {
        return Err(DocFault::At {
            place: DocPlace::Top,
            why: DocWhy::Format,
        });
    }
    if !head_fits(head) || !protection_fits(is_format(value, 2), value) {
        return Err(DocFault::At {
            place: DocPlace::Top,
            why: DocWhy::Range,
        });
    }
    Ok(head)
}

// The protections that the top states, or its fault of a name.
fn named_top(
    alloc: Global,
    requests: &Requests,
    value: &Value,
) -> Result<List<Protection>, DocFault>
    ensures { Gives (λ found. found) told result (named_top (reservation_names requests.now.list) (view value.now)) }
{
    match protections_of(alloc, requests, is_format(value, 2), value)? {
        Some(found) => Ok(found),
        None => Err(DocFault::At {
            place: DocPlace::Top,
            why: DocWhy::Name,
        }),
    }
}

// The region part, or its first fault.
fn region_in(
    alloc: Global,
    region: &Region,
    requests: &Requests,
    form: Form,
    value: &Value,
) -> Result<Part, DocFault>
    requires { size (view value.now) < 2 ^ 32 }
    ensures { Gives (λ p. seen_part p []) told result
        (region_in (server_names region.now.servers) (reservation_names requests.now.list) form (get (codes "region") (view value.now))) }
{
    let Some(found) = value.get("region") else {
        return Err(DocFault::At {
            place: DocPlace::Top,
            why: DocWhy::Shape,
        });
    };
    let (part, _) = part_at(alloc, region, requests, false, form, found)?;
    Ok(part)
}

// The rack part, if there is one, or its first fault.
fn rack_in(
    alloc: Global,
    region: &Region,
    requests: &Requests,
    value: &Value,
) -> Result<Option<RackPart>, DocFault>
    requires { size (view value.now) < 2 ^ 32 }
    ensures { Gives (option_map seen_rack) told result
        (rack_in (server_names region.now.servers) (reservation_names requests.now.list) (get (codes "rack") (view value.now))) }
{
    let Some(rack) = value.get("rack") else {
        return Ok(None);
    };
    let (part, chosen) = part_at(alloc, region, requests, true, Form::Planned, rack)?;
    Ok(Some(RackPart { chosen, part }))
}

// The document that a value is, or its first fault.
fn document_in(
    alloc: Global,
    region: &Region,
    requests: &Requests,
    value: &Value,
) -> Result<Document, DocFault>
    requires { size (view value.now) < 2 ^ 32 }
    ensures { Gives seen_document told result
        (document_in (server_names region.now.servers) (reservation_names requests.now.list) (view value.now)) }
{
    let head = top_of(value)?;
    let protection = named_top(alloc, requests, value)?;
    let form = form_of(head.answer, region_has_assignment(value));
    let part = region_in(alloc, region, requests, form, value)?;
    let rack = rack_in(alloc, region, requests, value)?;
    Ok(Document {
        answer: head.answer,
        grouping: head.grouping,
        gap: head.gap,
        nodes: head.nodes as u32,
        racks: head.racks as u32,
        region: part,
        rack,
        protection,
    })
}

/// The document that these bytes are, at most 64 MiB of them, or its first fault. Servers are named by the region
/// and reservations by the requests, and each place of an assignment is that of the region's server with its number.
///
/// The top is tested first, then the region part and its nodes in order, then the rack part and its nodes: of each its
/// shape, of the top then its format, then its ranges, and of the top and of a part then the names in it. `Memory` alone
/// says nothing of the bytes.
pub fn read_document(
    alloc: Global,
    region: &Region,
    requests: &Requests,
    bytes: &[u8],
) -> Result<Document, DocFault>
    requires { length bytes.now ≤ 64 * 2 ^ 20 }
    ensures is { Gives seen_document told result
        (document_of (server_names region.now.servers) (reservation_names requests.now.list) bytes.now) }
    ensures kept { IfOk result
        (CanBeWritten (server_names region.now.servers) (reservation_names requests.now.list)) }
{
    let value = match value_of(alloc, without_mark(bytes)) {
        Ok(value) => value,
        Err(fault) => return Err(fault),
    };
    document_in(alloc, region, requests, &value)
}
