ghost use Rattle.std.specs.Prelude.{◌≡◌, true, Some, IfOk, IfSome, map, option_map, option_and_then};
ghost use Rattle.ras_table.specs.Names.{names_differ};
ghost use Rattle.serde_json.specs.Find.{as_object};
ghost use Rattle.ras_requests.specs.Members.{is_object_of};
ghost use Rattle.serde_json.specs.View.{view, members_view};
ghost use Rattle.ras_requests.specs.RequestsRule.{kind_names};
ghost use Rattle.ras_table.specs.Answers.{Gives};
ghost use Rattle.ras_requests.specs.Shapes.{moves_of, values_in, values_of, near_at, nears_in, near_of, penalties_of, protection_in, reservation_members, reservation_of};
ghost use Rattle.ras_requests.specs.Drafts.{seen_costs, seen_values, seen_aim, seen_aims, seen_draft};

use crate::fault::RequestsWhy;
use crate::members::{is_object_of, name_in, needed_whole, optional_whole};
use crate::protection::protection_of_text;
use crate::requests::Protection;
use ras_table::{Name, NameFault};
use serde_json::{Map, Value as Json};
use std::alloc::{AllocError, Global};

/// What a file says that moves cost, before the limits are tested.
#[derive(Clone, Copy, Debug)]
pub struct Costs {
    pub take: u64,
    pub idle: u64,
    pub busy: u64,
}

/// A type and the units of one server of it.
#[derive(Debug, Drop)]
pub struct Units {
    pub kind: Name,
    pub units: u64,
}

/// A wish for units in one datacenter.
#[derive(Debug, Drop)]
pub struct Aim {
    pub center: Name,
    pub least: u64,
    pub weight: u64,
}

/// The weights and limits that a reservation may leave out.
#[derive(Clone, Copy, Debug)]
pub struct Penalties {
    pub buffer_weight: u64,
    pub spread_limit: u64,
    pub spread_weight: u64,
    pub rack_limit: u64,
    pub rack_weight: u64,
}

/// A reservation, before the limits are tested.
#[derive(Debug, Drop)]
pub struct Draft {
    pub name: Name,
    pub need: u64,
    pub values: Vec<Units>,
    pub penalties: Penalties,
    pub near: Vec<Aim>,
    pub protection: Protection,
}

/// The move costs.
pub fn costs_of(value: &Json) -> Option<Costs>
    ensures { option_map seen_costs result ≡ moves_of (view value.now) }
{
    if !is_object_of(value, &["take", "idle", "busy"]) {
        return None;
    }
    let take = needed_whole(value, "take")?;
    let idle = needed_whole(value, "idle")?;
    let busy = needed_whole(value, "busy")?;
    Some(Costs { take, idle, busy })
}

// The values of a reservation.
fn values_of(alloc: Global, members: &Map<String, Json>) -> Result<Option<Vec<Units>>, AllocError>
    ensures values { IfOk result (λ values. option_map seen_values values ≡ values_in (members_view members.now.entries)) }
    ensures differ { IfOk result (λ values. IfSome values (λ v. names_differ (kind_names (seen_values v)) ≡ true)) }
{
    let mut found = Vec::new(alloc);
    for (name, value) in members.iter() {
        let kind = match Name::read(alloc, name.as_bytes()) {
            Ok(kind) => kind,
            Err(NameFault::Bad) => return Ok(None),
            Err(NameFault::Memory) => return Err(AllocError),
        };
        let Some(units) = value.as_u64() else {
            return Ok(None);
        };
        found.push(Units { kind, units })?;
    }
    Ok(Some(found))
}

// The values of a reservation, if they have the shape.
fn values_in(alloc: Global, value: Option<&Json>) -> Result<Option<Vec<Units>>, AllocError>
    ensures values { IfOk result (λ values. option_map seen_values values ≡ option_and_then values_of (option_map (λ v. view v.now) value.entry)) }
    ensures differ { IfOk result (λ values. IfSome values (λ v. names_differ (kind_names (seen_values v)) ≡ true)) }
{
    let Some(value) = value else {
        return Ok(None);
    };
    match value.as_object() {
        Some(members) => values_of(alloc, members),
        None => Ok(None),
    }
}

// A wish for units in one datacenter, if it has the shape.
fn aim_of(alloc: Global, value: &Json) -> Result<Option<Aim>, AllocError>
    ensures { IfOk result (λ aim. option_map seen_aim aim ≡ near_at (view value.now)) }
{
    if !is_object_of(value, &["datacenter", "least", "weight"]) {
        return Ok(None);
    }
    let Some(center) = name_in(alloc, value.get("datacenter"))? else {
        return Ok(None);
    };
    let (Some(least), Some(weight)) = (needed_whole(value, "least"), needed_whole(value, "weight"))
    else {
        return Ok(None);
    };
    Ok(Some(Aim {
        center,
        least,
        weight,
    }))
}

// The wishes of a reservation.
fn aims_of(alloc: Global, items: &[Json]) -> Result<Option<Vec<Aim>>, AllocError>
    ensures { IfOk result (λ aims. option_map seen_aims aims ≡ nears_in (map view items.now)) }
{
    let mut found = Vec::new(alloc);
    for item in items {
        let Some(aim) = aim_of(alloc, item)? else {
            return Ok(None);
        };
        found.push(aim)?;
    }
    Ok(Some(found))
}

// The wishes of a reservation, none where they are left out, if they have the shape.
fn aims_in(alloc: Global, value: Option<&Json>) -> Result<Option<Vec<Aim>>, AllocError>
    ensures { IfOk result (λ aims. option_map seen_aims aims ≡ near_of (option_map (λ v. view v.now) value.entry)) }
{
    let Some(value) = value else {
        return Ok(Some(Vec::new(alloc)));
    };
    match value.as_array() {
        Some(items) => aims_of(alloc, items.as_slice()),
        None => Ok(None),
    }
}

// The weights and limits that may be left out.
fn penalties_of(value: &Json) -> Option<Penalties>
    ensures { result ≡ penalties_of (view value.now) }
{
    let buffer_weight = optional_whole(value, "buffer_weight")?;
    let spread_limit = optional_whole(value, "spread_limit")?;
    let spread_weight = optional_whole(value, "spread_weight")?;
    let rack_limit = optional_whole(value, "rack_limit")?;
    let rack_weight = optional_whole(value, "rack_weight")?;
    Some(Penalties {
        buffer_weight,
        spread_limit,
        spread_weight,
        rack_limit,
        rack_weight,
    })
}

// The protection of a reservation in a file of this format: Shape where the member is not what the format wants, and
// Range where its text is unknown.
fn protection_in(format: u64, found: Option<&Json>) -> Result<Protection, RequestsWhy>
    ensures { result ≡ protection_in format (option_map (λ v. view v.now) found.entry) }
{
    if format == 1 {
        return match found {
            Some(_) => Err(RequestsWhy::Shape),
            None => Ok(Protection::Board),
        };
    }
    let Some(value) = found else {
        return Err(RequestsWhy::Shape);
    };
    let Some(text) = value.as_str() else {
        return Err(RequestsWhy::Shape);
    };
    match protection_of_text(text) {
        Some(protection) => Ok(protection),
        None => Err(RequestsWhy::Range),
    }
}

// Whether a value is an object with no other members than a reservation's.
fn is_reservation(value: &Json) -> bool
    ensures { result ≡ is_object_of reservation_members (as_object (view value.now)) }
{
    is_object_of(
        value,
        &[
            "name",
            "need",
            "values",
            "buffer_weight",
            "spread_limit",
            "spread_weight",
            "rack_limit",
            "rack_weight",
            "near",
            "protection",
        ],
    )
}

/// A reservation of a file of this format: Shape where it has another shape, and else Range where its protection is
/// unknown.
pub fn draft_of(
    alloc: Global,
    format: u64,
    value: &Json,
) -> Result<Result<Draft, RequestsWhy>, AllocError>
    ensures draft { IfOk result (λ draft. Gives seen_draft (λ w. Some w) draft (reservation_of format (view value.now))) }
    ensures differ { IfOk result (λ draft. IfOk draft (λ d. names_differ (kind_names (seen_values d.values)) ≡ true)) }
{
    if !is_reservation(value) {
        return Ok(Err(RequestsWhy::Shape));
    }
    let Some(name) = name_in(alloc, value.get("name"))? else {
        return Ok(Err(RequestsWhy::Shape));
    };
    let Some(need) = needed_whole(value, "need") else {
        return Ok(Err(RequestsWhy::Shape));
    };
    let Some(values) = values_in(alloc, value.get("values"))? else {
        return Ok(Err(RequestsWhy::Shape));
    };
    let Some(penalties) = penalties_of(value) else {
        return Ok(Err(RequestsWhy::Shape));
    };
    let Some(near) = aims_in(alloc, value.get("near"))? else {
        return Ok(Err(RequestsWhy::Shape));
    };
    let protection = match protection_in(format, value.get("protection")) {
        Ok(protection) => protection,
        Err(why) => return Ok(Err(why)),
    };
    Ok(Ok(Draft {
        name,
        need,
        values,
        penalties,
        near,
        protection,
    }))
}
