//! The protections that a document states: an object that names each reservation once.

ghost use Rattle.std.specs.Prelude.{◌≡◌, true, false, IfOk, map, option_map, option_and_then, is_some, length, replicate};
ghost use Rattle.serde_json.specs.Find.{get, as_object, as_str};
ghost use Rattle.serde_json.specs.View.{view, members_view};
ghost use Rattle.ras_table.specs.Names.{number_of};
ghost use Rattle.ras_requests.specs.RequestsRule.{reservation_names};
ghost use Rattle.ras_requests.specs.declared.requests.Protection.TheVariants.{Board};
ghost use Rattle.plan_document.specs.Members.{are_texts};
ghost use Rattle.plan_document.specs.Protections.{protection_members, protection_in, are_protections, are_reservations, protection_at, each_protection, named_protections, protection_shaped, protection_fits, protections_of};

use crate::part::are_texts;
use ras_requests::{Protection, Requests, protection_of_text};
use ras_table::List;
use serde_json::{Map, Value};
use std::alloc::{AllocError, Global};

// The object that states them.
fn protection_members(value: &Value) -> Option<&Map<String, Value>>
    ensures { option_map (λ m. members_view m.now.entries) result ≡ protection_members (view value.now) }
{
    match value.get("protection") {
        Some(found) => found.as_object(),
        None => None,
    }
}

/// Whether they are an object of texts, where the format has them.
pub fn protection_shaped(second: bool, value: &Value) -> bool
    ensures { result ≡ protection_shaped second (view value.now) }
{
    if !second {
        return true;
    }
    match protection_members(value) {
        Some(members) => are_texts(members),
        None => false,
    }
}

// The protection whose text a value is.
fn protection_in(value: &Value) -> Option<Protection>
    ensures { result ≡ protection_in (view value.now) }
{
    match value.as_str() {
        Some(text) => protection_of_text(text),
        None => None,
    }
}

// Whether each member is the text of a protection.
fn are_protections(members: &Map<String, Value>) -> bool
    ensures { result ≡ are_protections (members_view members.now.entries) }
{
    for (_, value) in members.iter() {
        if protection_in(value).is_none() {
            return false;
        }
    }
    true
}

/// Whether each text is that of a protection, where the format has them.
pub fn protection_fits(second: bool, value: &Value) -> bool
    ensures { result ≡ protection_fits second (view value.now) }
{
    if !second {
        return true;
    }
    match protection_members(value) {
        Some(members) => are_protections(members),
        None => false,
    }
}

// Whether each member is named after a reservation.
fn are_reservations(requests: &Requests, members: &Map<String, Value>) -> bool
    ensures { result ≡ are_reservations (reservation_names requests.now.list) (members_view members.now.entries) }
{
    for (name, _) in members.iter() {
        if requests.find(name.as_bytes()).is_none() {
            return false;
        }
    }
    true
}

// The protection of the reservation of this name, if it has one.
fn protection_at(value: &Value, name: &str) -> Option<Protection>
    ensures { result ≡ protection_at name.now (view value.now) }
{
    match value.get(name) {
        Some(found) => protection_in(found),
        None => None,
    }
}

// The protection of each reservation, if each has one.
fn each_protection(
    alloc: Global,
    requests: &Requests,
    value: &Value,
) -> Result<Option<List<Protection>>, AllocError>
    ensures { IfOk result (λ found. found ≡ each_protection (reservation_names requests.now.list) (view value.now)) }
{
    let mut found = Vec::new(alloc);
    for reservation in requests.list.as_slice() {
        let Some(protection) = protection_at(value, reservation.name.text()) else {
            return Ok(None);
        };
        found.push(protection)?;
    }
    Ok(Some(List::from_vec(found)))
}

// The protection of each reservation, if each has one and no other name stands there.
fn named_protections(
    alloc: Global,
    requests: &Requests,
    value: &Value,
) -> Result<Option<List<Protection>>, AllocError>
    ensures { IfOk result (λ found. found ≡ named_protections (reservation_names requests.now.list) (view value.now)) }
{
    let Some(members) = value.as_object() else {
        return Ok(None);
    };
    if !are_reservations(requests, members) {
        return Ok(None);
    }
    each_protection(alloc, requests, value)
}

// The switchboard for each reservation.
fn board_for_each(alloc: Global, requests: &Requests) -> Result<List<Protection>, AllocError>
    ensures { IfOk result (λ found. found ≡ replicate (length (reservation_names requests.now.list)) Board) }
{
    let items = vec![in alloc; Protection::Board; requests.list.len() as usize]?;
    Ok(List::from_vec(items))
}

/// The protection of each reservation, if the format has none, or if each has one and no other name stands there.
pub fn protections_of(
    alloc: Global,
    requests: &Requests,
    second: bool,
    value: &Value,
) -> Result<Option<List<Protection>>, AllocError>
    ensures { IfOk result (λ found. found ≡ protections_of (reservation_names requests.now.list) second (view value.now)) }
{
    if !second {
        return Ok(Some(board_for_each(alloc, requests)?));
    }
    match value.get("protection") {
        Some(found) => named_protections(alloc, requests, found),
        None => Ok(None),
    }
}
