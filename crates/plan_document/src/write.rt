ghost use Rattle.std.specs.Prelude.{◌≡◌, ◌<◌, ◌^◌, Ok, IfOk, OnOk, List, map, codes, false, option_map, length, unwrap_or};
ghost use Rattle.serde_json.specs.View.{view, members_view, items_view};
ghost use Rattle.serde_json.specs.Written.{has_float};
ghost use Rattle.serde_json.specs.Data.{object, no_members};
ghost use Rattle.ras_inventory.specs.RegionRule.{server_names};
ghost use Rattle.ras_requests.specs.RequestsRule.{reservation_names};
ghost use Rattle.plan_document.specs.Seen.{seen_top, seen_multipliers, seen_point, seen_node};
ghost use Rattle.plan_document.specs.Parts.{seen_part};
ghost use Rattle.plan_document.specs.declared.shape.Shape.{Shape};
ghost use Rattle.plan_document.specs.Documents.{seen_document, seen_rack, document_of};
ghost use Rattle.plan_document.specs.Writable.{CanBeWritten};
ghost use Rattle.plan_document.specs.Written.{num, numbers_data, flat, weights_data, cut_data, node_data, nodes_data, name_of, put_place, put_places, assignment_data, chosen_data, planned_data, bound_data, region_data, rack_planned, rack_data, put_protections, protection_data, answer_text, grouping_text, racked_data, document_data, document_text};

use crate::document::{Answer, Document};
use crate::part::{Part, Planned, RackPart};
use bound_certificate::{Multipliers, Node, Top};
use ip_model::Point;
use plan_model::Grouping;
use ras_inventory::Region;
use ras_requests::{Protection, Requests, protection_text};
use ras_table::List;
use serde_json::{Map, Value, json};
use std::alloc::{AllocError, Global};

// The rows and numerators of multipliers.
fn tops_value(alloc: Global, tops: &[Top]) -> Result<Value, AllocError>
    ensures { IfOk result (λ v. view v ≡ numbers_data (flat (map seen_top tops.now))) }
{
    let mut list = Vec::new(alloc);
    for top in tops {
        list.push(Value::from(top.row))?;
        list.push(Value::from(top.num))?;
    }
    Ok(Value::from(list))
}

// Whole numbers.
fn counts_value(alloc: Global, counts: &[u32]) -> Result<Value, AllocError>
    ensures { IfOk result (λ v. view v ≡ numbers_data counts.now) }
{
    let mut list = Vec::new(alloc);
    for count in counts {
        list.push(Value::from(*count))?;
    }
    Ok(Value::from(list))
}

fn numbers_value(alloc: Global, numbers: &[u64]) -> Result<Value, AllocError>
    ensures { IfOk result (λ v. view v ≡ numbers_data numbers.now) }
{
    let mut list = Vec::new(alloc);
    for number in numbers {
        list.push(Value::from(*number))?;
    }
    Ok(Value::from(list))
}

// A leaf.
fn leaf_value(alloc: Global, word: &str, multipliers: &Multipliers) -> Result<Value, AllocError>
    ensures { IfOk result (λ v. view v ≡ weights_data word.now (seen_multipliers multipliers.now)) }
{
    let den = multipliers.den;
    let tops = tops_value(alloc, multipliers.tops.as_slice())?;
    json!(in alloc; [word, den, tops])
}

// A node.
fn node_value(alloc: Global, node: &Node) -> Result<Value, AllocError>
    ensures { IfOk result (λ v. view v ≡ node_data (seen_node node.now)) }
{
    match node {
        Node::Bound(multipliers) => leaf_value(alloc, "bound", multipliers),
        Node::Refute(multipliers) => leaf_value(alloc, "refute", multipliers),
        Node::Split {
            column,
            at,
            low,
            high,
            shown,
        } => match shown {
            None => json!(in alloc; ["split", (*column), (*at), (*low), (*high)]),
            Some(point) => {
                let den = point.den;
                let whole = counts_value(alloc, point.whole.as_slice())?;
                let part = numbers_value(alloc, point.part.as_slice())?;
                json!(in alloc; ["split", (*column), (*at), (*low), (*high), den, whole, part])
            }
        },
    }
}

// The nodes of a tree.
fn nodes_value(alloc: Global, nodes: &[Node]) -> Result<Value, AllocError>
    ensures { IfOk result (λ v. view v ≡ nodes_data (map seen_node nodes.now)) }
{
    let mut list = Vec::new(alloc);
    for node in nodes {
        list.push(node_value(alloc, node)?)?;
    }
    Ok(Value::from(list))
}

// The name of the server with a number, which is empty where there is none.
fn server_name(region: &Region, number: u32) -> &str
    ensures { result.now ≡ name_of (server_names region.now.servers) number }
{
    match region.servers.get(number) {
        Some(server) => server.name.text(),
        None => "",
    }
}

// The name of the reservation with a number, which is empty where there is none.
fn reservation_name(requests: &Requests, number: u32) -> &str
    ensures { result.now ≡ name_of (reservation_names requests.now.list) number }
{
    match requests.list.get(number) {
        Some(reservation) => reservation.name.text(),
        None => "",
    }
}

// Puts the reservation of a server.
fn put_place(
    alloc: Global,
    requests: &Requests,
    server: &str,
    place: Option<u32>,
    members: &mut Map<String, Value>,
) -> Result<(), AllocError>
    ensures { OnOk result (members_view members.new.entries
        ≡ put_place (reservation_names requests.now.list) server.now place (members_view members.old.entries)) }
{
    match place {
        Some(reservation) => {
            let name = reservation_name(requests, reservation);
            let text = Value::try_from_str(alloc, name)?;
            serde_json::put(members, alloc, server, text)
        }
        None => Ok(()),
    }
}

// An assignment.
fn assignment_value(
    alloc: Global,
    region: &Region,
    requests: &Requests,
    places: &[Option<u32>],
) -> Result<Value, AllocError>
    requires { length places.now < 2 ^ 32 }
    ensures { IfOk result (λ v. view v ≡ assignment_data (server_names region.now.servers) (reservation_names requests.now.list) places.now) }
{
    let mut members = Map::new(alloc);
    for n in 0..places.len() {
        let server = server_name(region, n as u32);
        put_place(alloc, requests, server, places[n], &mut members)?;
    }
    Ok(Value::from(members))
}

// The names of chosen reservations.
fn chosen_value(alloc: Global, requests: &Requests, chosen: &[u32]) -> Result<Value, AllocError>
    ensures { IfOk result (λ v. view v ≡ chosen_data (reservation_names requests.now.list) chosen.now) }
{
    let mut list = Vec::new(alloc);
    for number in chosen {
        let name = reservation_name(requests, *number);
        list.push(Value::try_from_str(alloc, name)?)?;
    }
    Ok(Value::from(list))
}

// The lower bound that is stated, and 0 where there is none.
fn lower_or_zero(lower: Option<u64>) -> u64
    ensures { result ≡ unwrap_or lower 0 }
{
    match lower {
        Some(lower) => lower,
        None => 0,
    }
}

// A part without a plan.
fn bound_value(alloc: Global, lower: Option<u64>, tree: Value) -> Result<Value, AllocError>
    ensures { (nodes : List Shape) → view tree ≡ nodes_data nodes → IfOk result (λ v. view v ≡ bound_data lower nodes) }
{
    match lower {
        Some(lower) => json!(in alloc; {"lower": lower, "tree": tree}),
        None => json!(in alloc; {"tree": tree}),
    }
}

// The region part.
fn region_value(
    alloc: Global,
    region: &Region,
    requests: &Requests,
    part: &Part,
) -> Result<Value, AllocError>
    ensures { IfOk result (λ v. view v ≡ region_data (server_names region.now.servers) (reservation_names requests.now.list) part.now.plan part.now.lower (map seen_node part.now.tree.nodes)) }
{
    let tree = nodes_value(alloc, part.tree.nodes.as_slice())?;
    match &part.plan {
        None => bound_value(alloc, part.lower, tree),
        Some(plan) => {
            let assignment = assignment_value(alloc, region, requests, plan.of.of.as_slice())?;
            let gap = plan.gap;
            let lower = lower_or_zero(part.lower);
            let cost = plan.value;
            json!(in alloc; {"assignment": assignment, "gap": gap, "lower": lower, "tree": tree, "value": cost})
        }
    }
}

// The rack part.
fn rack_value(
    alloc: Global,
    region: &Region,
    requests: &Requests,
    rack: &RackPart,
) -> Result<Value, AllocError>
    ensures { IfOk result (λ v. view v ≡ rack_data (server_names region.now.servers) (reservation_names requests.now.list) rack.now.chosen rack.now.part.plan rack.now.part.lower (map seen_node rack.now.part.tree.nodes)) }
{
    let tree = nodes_value(alloc, rack.part.tree.nodes.as_slice())?;
    match &rack.part.plan {
        None => bound_value(alloc, rack.part.lower, tree),
        Some(plan) => {
            let assignment = assignment_value(alloc, region, requests, plan.of.of.as_slice())?;
            let chosen = chosen_value(alloc, requests, rack.chosen.as_slice())?;
            let gap = plan.gap;
            let lower = lower_or_zero(rack.part.lower);
            let cost = plan.value;
            json!(in alloc; {"assignment": assignment, "chosen": chosen, "gap": gap, "lower": lower, "tree": tree, "value": cost})
        }
    }
}

// The protections, by the names of the reservations.
fn protection_value(
    alloc: Global,
    requests: &Requests,
    protections: &[Protection],
) -> Result<Value, AllocError>
    requires { length protections.now < 2 ^ 32 }
    ensures { IfOk result (λ v. view v ≡ protection_data (reservation_names requests.now.list) protections.now) }
{
    let mut members = Map::new(alloc);
    for n in 0..protections.len() {
        let name = reservation_name(requests, n as u32);
        let text = Value::try_from_str(alloc, protection_text(protections[n]))?;
        serde_json::put(&mut members, alloc, name, text)?;
    }
    Ok(Value::from(members))
}

fn answer_text(answer: Answer) -> &'static str
    ensures { result.now ≡ answer_text answer }
{
    match answer {
        Answer::Plan => "plan",
        Answer::Infeasible => "infeasible",
        Answer::Limit => "limit",
    }
}

fn grouping_text(grouping: Grouping) -> &'static str
    ensures { result.now ≡ grouping_text grouping }
{
    match grouping {
        Grouping::Single => "single",
        Grouping::Class => "class",
    }
}

// The value of a document with a rack part, by those of its parts.
fn racked_value(
    alloc: Global,
    document: &Document,
    protection: Value,
    rack: Value,
    region: Value,
) -> Result<Value, AllocError>
    ensures { IfOk result (λ v. view v ≡ racked_data (seen_document document.now).head (view protection) (view rack) (view region)) }
{
    let answer = answer_text(document.answer);
    let grouping = grouping_text(document.grouping);
    let gap = document.gap;
    let nodes = document.nodes;
    let racks = document.racks;
    json!(in alloc; {"answer": answer, "format": 2u32, "gap": gap, "grouping": grouping, "nodes": nodes, "protection": protection, "rack": rack, "racks": racks, "region": region})
}

// The value of a document.
fn document_value(
    alloc: Global,
    region: &Region,
    requests: &Requests,
    document: &Document,
) -> Result<Value, AllocError>
    ensures { IfOk result (λ v. view v ≡ document_data (server_names region.now.servers) (reservation_names requests.now.list) (seen_document document.now)) }
{
    let answer = answer_text(document.answer);
    let grouping = grouping_text(document.grouping);
    let gap = document.gap;
    let nodes = document.nodes;
    let racks = document.racks;
    let part = region_value(alloc, region, requests, &document.region)?;
    let protection = protection_value(alloc, requests, document.protection.as_slice())?;
    match &document.rack {
        None => {
            json!(in alloc; {"answer": answer, "format": 2u32, "gap": gap, "grouping": grouping, "nodes": nodes, "protection": protection, "racks": racks, "region": part})
        }
        Some(rack) => {
            let rack = rack_value(alloc, region, requests, rack)?;
            racked_value(alloc, document, protection, rack, part)
        }
    }
}

// The list of these bytes. There is no room in a list for 2^32 bytes and more.
fn listed(bytes: Vec<u8>) -> Result<List<u8>, AllocError>
    ensures { IfOk result (λ list. list ≡ bytes.items) }
{
    if bytes.len() > u32::MAX as usize {
        Err(AllocError)
    } else {
        Ok(List::from_vec(bytes))
    }
}

/// The text of a document in format 2: the compact JSON text of its value, and a line feed. A server without a reservation is not
/// named in an assignment. The text of a document that the format can state is read again as that document.
pub fn write_document(
    alloc: Global,
    region: &Region,
    requests: &Requests,
    document: &Document,
) -> Result<List<u8>, AllocError>
    ensures is { IfOk result (λ text. text ≡ document_text
        (server_names region.now.servers) (reservation_names requests.now.list) (seen_document document.now)) }
    ensures again { CanBeWritten (server_names region.now.servers) (reservation_names requests.now.list) document.now
        → IfOk result (λ text. document_of (server_names region.now.servers) (reservation_names requests.now.list) text
        ≡ Ok (seen_document document.now)) }
{
    let value = document_value(alloc, region, requests, document)?;
    let mut bytes = value.to_vec(alloc)?;
    bytes.push(b'\n')?;
    listed(bytes)
}
