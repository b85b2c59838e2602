ghost use Rattle.std.specs.Prelude.{◌≡◌, ◌≤◌, ◌<◌, ◌^◌, true, false, IfOk, IfSome, Some, None, map, option_map, option_and_then, is_some, length, nat_le, []};
ghost use Rattle.std.specs.List.{list_all, list_any};
ghost use Rattle.std.specs.Str.{bytes_eq};
ghost use Rattle.serde_json.specs.Find.{get, as_object, as_str};
ghost use Rattle.serde_json.specs.View.{view, members_view};
ghost use Rattle.ras_table.specs.Answers.{Gives};
ghost use Rattle.ras_inventory.specs.RegionRule.{server_names};
ghost use Rattle.ras_requests.specs.RequestsRule.{reservation_names};
ghost use Rattle.ras_table.specs.Names.{number_of};
ghost use Rattle.plan_document.specs.Sizes.{size, list_size};
ghost use Rattle.plan_document.specs.Members.{has_only, is_object_of, needed_whole, are_texts, is_text, are_known, numbered};
ghost use Rattle.plan_document.specs.Parts.{part_names, claim_of, lower_of, stated_of, has_nodes, chosen_shaped, assignment_shaped, part_shape, at_most, stated_fits, place_in, places_of, plan_of, chosen_of, chosen_at, part_place, node_place, nodes_from, nodes_at, named_part, part_at, seen_part, entries_at, assignment_of};
ghost use Rattle.plan_document.specs.Seen.{seen_node};
ghost use Rattle.plan_document.specs.Faults.{told};

use crate::fault::{DocFault, DocPlace, DocWhy};
use crate::node::node_at;
use crate::numbers::entries_of;
use bound_certificate::{Node, Tree};
use plan_model::Assignment;
use ras_inventory::Region;
use ras_requests::Requests;
use ras_table::List;
use serde_json::{Map, Value};
use std::alloc::{AllocError, Global};

/// An assignment with its cost, and how far that may be from the least.
#[derive(Debug, Drop)]
pub struct Planned {
    /// The reservation of each server.
    pub of: Assignment,
    /// What the assignment costs in its phase, 0 to 2^62.
    pub value: u64,
    /// How far the cost may be above the least, 0 to 2^62.
    pub gap: u64,
}

/// What is shown for one phase.
#[derive(Debug, Drop)]
pub struct Part {
    /// The plan, where there is one.
    pub plan: Option<Planned>,
    /// What each allowed assignment costs at least, 0 to 2^62, where that is stated.
    pub lower: Option<u64>,
    /// The tree that shows that bound, or that no assignment is allowed.
    pub tree: Tree,
}

/// What is shown for the phase of racks.
#[derive(Debug, Drop)]
pub struct RackPart {
    /// The reservations whose racks are planned, 1 to 64 of them.
    pub chosen: List<u32>,
    /// What is shown for them.
    pub part: Part,
}

/// Which members a part has.
#[derive(Clone, Copy, Debug)]
pub enum Form {
    /// An assignment with its value and gap, a lower bound and a tree.
    Planned,
    /// A lower bound and a tree.
    Bounded,
    /// A tree alone.
    Bare,
}

/// The value and the gap that a part states.
#[derive(Clone, Copy, Debug)]
pub struct Claim {
    /// What the assignment costs.
    pub value: u64,
    /// How far that may be above the least.
    pub gap: u64,
}

/// The numbers that a part states.
#[derive(Clone, Copy, Debug)]
pub struct Stated {
    /// Those of its plan.
    pub claim: Option<Claim>,
    /// The lower bound.
    pub lower: Option<u64>,
}

// Whether a text is one of these.
fn is_among(names: &[&str], text: &str) -> bool
    ensures { result ≡ list_any (λ n. bytes_eq n text.now) (map (λ n. n.now) names.now) }
{
    for name in names {
        if name.as_bytes() == text.as_bytes() {
            return true;
        }
    }
    false
}

// Whether every member has one of these names.
fn has_only(members: &Map<String, Value>, names: &[&str]) -> bool
    ensures { result ≡ has_only (map (λ n. n.now) names.now) (members_view members.now.entries) }
{
    for (name, _) in members.iter() {
        if !is_among(names, name.as_str()) {
            return false;
        }
    }
    true
}

/// Whether a value is an object that has no other members.
pub fn is_object_of(value: &Value, names: &[&str]) -> bool
    ensures { result ≡ is_object_of (map (λ n. n.now) names.now) (as_object (view value.now)) }
{
    match value.as_object() {
        Some(members) => has_only(members, names),
        None => false,
    }
}

/// A member that is a whole number.
pub fn needed_whole(value: &Value, name: &str) -> Option<u64>
    ensures { result ≡ needed_whole name.now (view value.now) }
{
    value.get(name).and_then(Value::as_u64)
}

// Whether a part has no other members than those of its form.
fn has_members(with_chosen: bool, form: Form, value: &Value) -> bool
    ensures { result ≡ is_object_of (part_names with_chosen form) (as_object (view value.now)) }
{
    match form {
        Form::Planned => {
            if with_chosen {
                is_object_of(
                    value,
                    &["assignment", "chosen", "gap", "lower", "tree", "value"],
                )
            } else {
                is_object_of(value, &["assignment", "gap", "lower", "tree", "value"])
            }
        }
        Form::Bounded => is_object_of(value, &["lower", "tree"]),
        Form::Bare => is_object_of(value, &["tree"]),
    }
}

// The value and the gap that a part of this form states.
fn claim_of(form: Form, value: &Value) -> Option<Option<Claim>>
    ensures { result ≡ claim_of form (view value.now) }
{
    match form {
        Form::Planned => {
            let cost = needed_whole(value, "value")?;
            let gap = needed_whole(value, "gap")?;
            Some(Some(Claim { value: cost, gap }))
        }
        Form::Bounded => Some(None),
        Form::Bare => Some(None),
    }
}

// The lower bound that a part of this form states.
fn lower_of(form: Form, value: &Value) -> Option<Option<u64>>
    ensures { result ≡ lower_of form (view value.now) }
{
    match form {
        Form::Planned => Some(Some(needed_whole(value, "lower")?)),
        Form::Bounded => Some(Some(needed_whole(value, "lower")?)),
        Form::Bare => Some(None),
    }
}

// The numbers that a part of this form states.
fn stated_of(form: Form, value: &Value) -> Option<Stated>
    ensures { result ≡ stated_of form (view value.now) }
{
    let claim = claim_of(form, value)?;
    let lower = lower_of(form, value)?;
    Some(Stated { claim, lower })
}

/// Whether each member is a text.
pub fn are_texts(members: &Map<String, Value>) -> bool
    ensures { result ≡ are_texts (members_view members.now.entries) }
{
    for (_, value) in members.iter() {
        if value.as_str().is_none() {
            return false;
        }
    }
    true
}

// Whether a part of this form has the shape of an assignment.
fn assignment_shaped(form: Form, value: &Value) -> bool
    ensures { result ≡ assignment_shaped form (view value.now) }
{
    match form {
        Form::Planned => match value.get("assignment") {
            Some(found) => match found.as_object() {
                Some(members) => are_texts(members),
                None => false,
            },
            None => false,
        },
        Form::Bounded => true,
        Form::Bare => true,
    }
}

// The entries of an array that is a member.
fn entries_at<'v>(value: &'v Value, name: &str) -> Option<&'v [Value]>
    ensures { option_map (λ v. map view v.now) result ≡ entries_at name.now (view value.now) }
{
    match value.get(name) {
        Some(found) => entries_of(found),
        None => None,
    }
}

// Whether there is a node.
fn has_nodes(value: &Value) -> bool
    ensures { result ≡ has_nodes (view value.now) }
{
    match entries_at(value, "tree") {
        Some(entries) => entries.len() >= 1,
        None => false,
    }
}

// Whether all are texts.
fn texts_in(values: &[Value]) -> bool
    ensures { result ≡ list_all is_text (map view values.now) }
{
    for value in values {
        if value.as_str().is_none() {
            return false;
        }
    }
    true
}

// Whether the chosen ones have the shape.
fn chosen_shaped(with_chosen: bool, value: &Value) -> bool
    ensures { result ≡ chosen_shaped with_chosen (view value.now) }
{
    if !with_chosen {
        return true;
    }
    match entries_at(value, "chosen") {
        Some(entries) => entries.len() >= 1 && entries.len() <= 64 && texts_in(entries),
        None => false,
    }
}

// The numbers of a part that has the shape of its form.
fn part_shape(with_chosen: bool, form: Form, value: &Value) -> Option<Stated>
    ensures nodes { IfSome result (λ _. has_nodes (view value.now) ≡ true) }
    ensures is { result ≡ part_shape with_chosen form (view value.now) }
{
    if has_members(with_chosen, form, value)
        && assignment_shaped(form, value)
        && has_nodes(value)
        && chosen_shaped(with_chosen, value)
    {
        stated_of(form, value)
    } else {
        None
    }
}

// Whether a number that may be absent is in its range.
fn at_most(most: u64, number: Option<u64>) -> bool
    ensures { result ≡ at_most most number }
{
    match number {
        Some(number) => number <= most,
        None => true,
    }
}

// Whether the numbers of a part are in their ranges.
fn stated_fits(stated: Stated) -> bool
    ensures { result ≡ stated_fits stated }
{
    match stated.claim {
        Some(claim) => {
            claim.value <= 1 << 62 && claim.gap <= 1 << 62 && at_most(1 << 62, stated.lower)
        }
        None => at_most(1 << 62, stated.lower),
    }
}

// The number of the reservation whose name a value is.
fn number_in(requests: &Requests, value: &Value) -> Option<u32>
    ensures { result ≡ numbered (reservation_names requests.now.list) (view value.now) }
{
    match value.as_str() {
        Some(text) => requests.find(text.as_bytes()),
        None => None,
    }
}

// Whether each member is named after a server, and is the name of a reservation.
fn are_known(region: &Region, requests: &Requests, members: &Map<String, Value>) -> bool
    ensures { result ≡ are_known (server_names region.now.servers) (reservation_names requests.now.list) (members_view members.now.entries) }
{
    for (name, value) in members.iter() {
        if region.find(name.as_bytes()).is_none() || number_in(requests, value).is_none() {
            return false;
        }
    }
    true
}

// The reservation that a document gives a server of this name.
fn place_in(requests: &Requests, value: &Value, server: &str) -> Option<u32>
    ensures { result ≡ place_in (reservation_names requests.now.list) (view value.now) server.now }
{
    match value.get(server) {
        Some(found) => number_in(requests, found),
        None => None,
    }
}

// The reservation of each server.
fn places_of(
    alloc: Global,
    region: &Region,
    requests: &Requests,
    value: &Value,
) -> Result<List<Option<u32>>, AllocError>
    ensures { IfOk result (λ places. places ≡ places_of (server_names region.now.servers) (reservation_names requests.now.list) (view value.now)) }
{
    let mut places = Vec::new(alloc);
    for server in region.servers.as_slice() {
        places.push(place_in(requests, value, server.name.text()))?;
    }
    Ok(List::from_vec(places))
}

// The assignment of an object, if each name in it is known.
fn assignment_of(
    alloc: Global,
    region: &Region,
    requests: &Requests,
    value: &Value,
) -> Result<Option<Assignment>, AllocError>
    ensures { IfOk result (λ found. found ≡ assignment_of (server_names region.now.servers) (reservation_names requests.now.list) (view value.now)) }
{
    let Some(members) = value.as_object() else {
        return Ok(None);
    };
    if !are_known(region, requests, members) {
        return Ok(None);
    }
    let of = places_of(alloc, region, requests, value)?;
    Ok(Some(Assignment { of }))
}

// What is planned by a part that states these numbers, if each name in it is known.
fn plan_of(
    alloc: Global,
    region: &Region,
    requests: &Requests,
    claim: Option<Claim>,
    value: &Value,
) -> Result<Option<Option<Planned>>, AllocError>
    ensures { IfOk result (λ plan. plan ≡ plan_of (server_names region.now.servers) (reservation_names requests.now.list) claim (view value.now)) }
{
    let Some(claim) = claim else {
        return Ok(Some(None));
    };
    let Some(found) = value.get("assignment") else {
        return Ok(None);
    };
    let Some(of) = assignment_of(alloc, region, requests, found)? else {
        return Ok(None);
    };
    Ok(Some(Some(Planned {
        of,
        value: claim.value,
        gap: claim.gap,
    })))
}

// The numbers of the names that values are, if all are known.
fn chosen_of(
    alloc: Global,
    requests: &Requests,
    values: &[Value],
) -> Result<Option<List<u32>>, AllocError>
    requires { length values.now < 2 ^ 32 }
    ensures { IfOk result (λ chosen. chosen ≡ chosen_of (reservation_names requests.now.list) (map view values.now)) }
{
    let mut chosen = Vec::new(alloc);
    for value in values {
        let Some(number) = number_in(requests, value) else {
            return Ok(None);
        };
        chosen.push(number)?;
    }
    Ok(Some(List::from_vec(chosen)))
}

// The chosen reservations of a part, if all are known: none where it has no list of them.
fn chosen_at(
    alloc: Global,
    requests: &Requests,
    with_chosen: bool,
    value: &Value,
) -> Result<Option<List<u32>>, AllocError>
    requires { size (view value.now) < 2 ^ 32 }
    ensures is { IfOk result (λ chosen. chosen ≡ chosen_at (reservation_names requests.now.list) with_chosen (view value.now)) }
    ensures none { IfOk result (λ chosen. IfSome chosen (λ chosen. with_chosen ≡ false → chosen ≡ [])) }
{
    if !with_chosen {
        return Ok(Some(List::new(alloc, 0)?));
    }
    match entries_at(value, "chosen") {
        Some(entries) => chosen_of(alloc, requests, entries),
        None => Ok(None),
    }
}

// The place of a part's own faults, and of those of its nodes.
fn part_place(with_chosen: bool) -> DocPlace
    ensures { result ≡ part_place with_chosen }
{
    if with_chosen {
        DocPlace::Rack
    } else {
        DocPlace::Region
    }
}

fn node_place(with_chosen: bool, node: u32) -> DocPlace
    ensures { result ≡ node_place with_chosen node }
{
    if with_chosen {
        DocPlace::RackNode(node)
    } else {
        DocPlace::RegionNode(node)
    }
}

// The nodes of these entries, or the first fault.
fn nodes_of(alloc: Global, with_chosen: bool, entries: &[Value]) -> Result<List<Node>, DocFault>
    requires { list_size (map view entries.now) < 2 ^ 32 }
    ensures is { Gives (map seen_node) told result (nodes_from with_chosen 0 [] (map view entries.now)) }
    ensures all { IfOk result (λ nodes. length nodes ≡ length entries.now) }
{
    let mut nodes = Vec::new(alloc);
    for i in 0..entries.len() {
        let node = node_at(alloc, node_place(with_chosen, i as u32), &entries[i])?;
        if nodes.push(node).is_err() {
            return Err(DocFault::Memory);
        }
    }
    Ok(List::from_vec(nodes))
}

// The tree of a part, or the first fault of its nodes.
fn tree_of(alloc: Global, with_chosen: bool, value: &Value) -> Result<Tree, DocFault>
    requires nodes { has_nodes (view value.now) ≡ true }
    requires small { size (view value.now) < 2 ^ 32 }
    ensures { Gives (λ t. map seen_node t.nodes) told result (nodes_at with_chosen (view value.now)) }
{
    match entries_at(value, "tree") {
        Some(entries) => {
            let nodes = nodes_of(alloc, with_chosen, entries)?;
            Ok(Tree { nodes })
        }
        // The part has the shape of its form.
        None => unreachable!(),
    }
}

// The names and the nodes of a part, or its first fault.
fn named_part(
    alloc: Global,
    region: &Region,
    requests: &Requests,
    with_chosen: bool,
    stated: Stated,
    value: &Value,
) -> Result<(Part, List<u32>), DocFault>
    requires nodes { has_nodes (view value.now) ≡ true }
    requires small { size (view value.now) < 2 ^ 32 }
    ensures none { IfOk result (λ p. with_chosen ≡ false → p.1 ≡ []) }
    ensures is { Gives (λ p. seen_part p.0 p.1) told result
        (named_part (server_names region.now.servers) (reservation_names requests.now.list) with_chosen stated (view value.now)) }
{
    let Some(plan) = plan_of(alloc, region, requests, stated.claim, value)? else {
        return Err(DocFault::At {
            place: part_place(with_chosen),
            why: DocWhy::Name,
        });
    };
    let Some(chosen) = chosen_at(alloc, requests, with_chosen, value)? else {
        return Err(DocFault::At {
            place: part_place(with_chosen),
            why: DocWhy::Name,
        });
    };
    let tree = tree_of(alloc, with_chosen, value)?;
    Ok((
        Part {
            plan,
            lower: stated.lower,
            tree,
        },
        chosen,
    ))
}

/// A part of this form, with its chosen reservations, or its first fault.
pub fn part_at(
    alloc: Global,
    region: &Region,
    requests: &Requests,
    with_chosen: bool,
    form: Form,
    value: &Value,
) -> Result<(Part, List<u32>), DocFault>
    requires { size (view value.now) < 2 ^ 32 }
    ensures none { IfOk result (λ p. with_chosen ≡ false → p.1 ≡ []) }
    ensures is { Gives (λ p. seen_part p.0 p.1) told result
        (part_at (server_names region.now.servers) (reservation_names requests.now.list) with_chosen form (view value.now)) }
{
    let Some(stated) = part_shape(with_chosen, form, value) else {
        return Err(DocFault::At {
            place: part_place(with_chosen),
            why: DocWhy::Shape,
        });
    };
    if !stated_fits(stated) {
        return Err(DocFault::At {
            place: part_place(with_chosen),
            why: DocWhy::Range,
        });
    }
    named_part(alloc, region, requests, with_chosen, stated, value)
}
