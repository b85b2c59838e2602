ghost use Rattle.std.specs.Prelude.{◌≡◌, IfOk, map, option_map, option_and_then};
ghost use Rattle.std.specs.List.{list_any};
ghost use Rattle.std.specs.Str.{bytes_eq};
ghost use Rattle.serde_json.specs.Find.{as_object};
ghost use Rattle.serde_json.specs.View.{view, members_view};
ghost use Rattle.ras_requests.specs.Members.{has_only, name_in, needed_whole, optional_whole, is_object_of};

use ras_table::{Name, NameFault};
use serde_json::{Map, Value as Json};
use std::alloc::{AllocError, Global};

// Whether a text is one of these.
fn is_among(names: &[&str], text: &str) -> bool
    ensures { result ≡ list_any (λ n. bytes_eq n text.now) (map (λ n. n.now) names.now) }
{
    for name in names {
        if name.as_bytes() == text.as_bytes() {
            return true;
        }
    }
    false
}

// Whether every member has one of these names.
fn has_only(members: &Map<String, Json>, names: &[&str]) -> bool
    ensures { result ≡ has_only (map (λ n. n.now) names.now) (members_view members.now.entries) }
{
    for (name, _) in members.iter() {
        if !is_among(names, name.as_str()) {
            return false;
        }
    }
    true
}

/// Whether a value is an object that has no other members.
pub fn is_object_of(value: &Json, names: &[&str]) -> bool
    ensures { result ≡ is_object_of (map (λ n. n.now) names.now) (as_object (view value.now)) }
{
    match value.as_object() {
        Some(members) => has_only(members, names),
        None => false,
    }
}

/// A member that is a whole number.
pub fn needed_whole(value: &Json, name: &str) -> Option<u64>
    ensures { result ≡ needed_whole name.now (view value.now) }
{
    value.get(name).and_then(Json::as_u64)
}

/// A member that is a whole number, where it is there, and else 0.
pub fn optional_whole(value: &Json, name: &str) -> Option<u64>
    ensures { result ≡ optional_whole name.now (view value.now) }
{
    match value.get(name) {
        Some(found) => found.as_u64(),
        None => Some(0),
    }
}

/// A text that is a name.
pub fn name_in(alloc: Global, value: Option<&Json>) -> Result<Option<Name>, AllocError>
    ensures { IfOk result (λ name. name ≡ option_and_then name_in (option_map (λ v. view v.now) value.entry)) }
{
    let Some(value) = value else {
        return Ok(None);
    };
    let Some(text) = value.as_str() else {
        return Ok(None);
    };
    match Name::read(alloc, text.as_bytes()) {
        Ok(name) => Ok(Some(name)),
        Err(NameFault::Bad) => Ok(None),
        Err(NameFault::Memory) => Err(AllocError),
    }
}
