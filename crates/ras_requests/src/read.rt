ghost use Rattle.std.specs.Prelude.{◌≡◌, ◌≤◌, ◌*◌, ◌^◌, true, false, Some, IfOk, map, length, option_map, option_and_then, codes, []};
ghost use Rattle.serde_json.specs.Find.{get};
ghost use Rattle.serde_json.specs.View.{view};
ghost use Rattle.ras_table.specs.Answers.{Gives};
ghost use Rattle.ras_requests.specs.RequestsRule.{moves_in_range, reservation_rule};
ghost use Rattle.ras_requests.specs.Shapes.{moves_of};
ghost use Rattle.ras_requests.specs.Drafts.{seen_costs};
ghost use Rattle.ras_requests.specs.Within.{AreReservations};
ghost use Rattle.ras_requests.specs.Requested.{entries_in, top_of, stands_before, reservation_at, reservations_from, json_of, requests_of, seen, told, ValueOf};

use crate::all::Requests;
use crate::draft::{Costs, costs_of, draft_of};
use crate::fault::{RequestsFault, RequestsWhy};
use crate::limits::{first_fault, moves_from, moves_in_range, reservation_from};
use crate::members::{is_object_of, needed_whole};
use crate::requests::{Moves, Reservation};
use ras_table::{List, without_mark};
use serde_json::Value as Json;
use std::alloc::Global;

// The value that bytes are.
fn value_of(alloc: Global, bytes: &[u8]) -> Result<Json, RequestsFault>
    ensures { ValueOf result (json_of bytes.now) }
{
    match Json::from_slice(alloc, bytes) {
        Ok(value) => Ok(value),
        Err(error) => {
            if error.is_memory() {
                Err(RequestsFault::Memory)
            } else {
                Err(RequestsFault::At {
                    place: 0,
                    why: RequestsWhy::NotJson,
                })
            }
        }
    }
}

// The entries of the array of reservations.
fn entries_in(value: &Json) -> Option<&Vec<Json>>
    ensures { option_map (λ v. map view v.now.items) result ≡ entries_in (view value.now) }
{
    match value.get("reservations") {
        Some(found) => found.as_array(),
        None => None,
    }
}

// The move costs of the whole.
fn costs_in(value: &Json) -> Option<Costs>
    ensures { option_map seen_costs result ≡ option_and_then moves_of (get (codes "moves") (view value.now)) }
{
    match value.get("moves") {
        Some(moves) => costs_of(moves),
        None => None,
    }
}

// The format, the move costs and the entries, or the first fault of the whole.
fn top_of(value: &Json) -> Result<(u64, Moves, &Vec<Json>), RequestsWhy>
    ensures top { Gives (λ p. (p.0, p.1, map view p.2.now.items)) (λ w. Some w) result (top_of (view value.now)) }
    ensures few { IfOk result (λ p. length p.2.now.items ≤ 64) }
    ensures range { IfOk result (λ p. moves_in_range p.1 ≡ true) }
{
    if !is_object_of(value, &["format", "moves", "reservations"]) {
        return Err(RequestsWhy::Shape);
    }
    let Some(format) = needed_whole(value, "format") else {
        return Err(RequestsWhy::Shape);
    };
    let Some(costs) = costs_in(value) else {
        return Err(RequestsWhy::Shape);
    };
    let Some(entries) = entries_in(value) else {
        return Err(RequestsWhy::Shape);
    };
    if format != 1 && format != 2 {
        Err(RequestsWhy::Format)
    } else if !moves_in_range(costs) {
        Err(RequestsWhy::Range)
    } else if entries.len() > 64 {
        Err(RequestsWhy::Many)
    } else {
        Ok((format, moves_from(costs), entries))
    }
}

// The reservation of an entry, or its first fault.
fn reservation_at(
    alloc: Global,
    format: u64,
    place: u32,
    before: &[Reservation],
    value: &Json,
) -> Result<Reservation, RequestsFault>
    ensures reservation { Gives (λ r. r) told result (reservation_at format place before.now (view value.now)) }
    ensures rule { IfOk result (λ r. reservation_rule r ≡ true) }
    ensures fresh { IfOk result (λ r. stands_before before.now r ≡ false) }
{
    let draft = match draft_of(alloc, format, value) {
        Ok(Ok(draft)) => draft,
        Ok(Err(why)) => return Err(RequestsFault::At { place, why }),
        Err(_) => return Err(RequestsFault::Memory),
    };
    match first_fault(before, &draft) {
        Some(why) => Err(RequestsFault::At { place, why }),
        None => match reservation_from(alloc, &draft) {
            Ok(reservation) => Ok(reservation),
            Err(_) => Err(RequestsFault::Memory),
        },
    }
}

// The reservations of these entries, or the first fault.
fn reservations_of(
    alloc: Global,
    format: u64,
    entries: &[Json],
) -> Result<List<Reservation>, RequestsFault>
    requires { length entries.now ≤ 64 }
    ensures list { Gives (λ list. list) told result (reservations_from format 1 [] (map view entries.now)) }
    ensures rule { IfOk result (λ list. AreReservations list) }
    ensures few { IfOk result (λ list. length list ≤ 64) }
{
    let Ok(mut list) = List::new(alloc, entries.len() as u32) else {
        return Err(RequestsFault::Memory);
    };
    for i in 0..entries.len() {
        let place = i as u32 + 1;
        let reservation = match reservation_at(alloc, format, place, list.as_slice(), &entries[i]) {
            Ok(reservation) => reservation,
            Err(fault) => return Err(fault),
        };
        if list.push(reservation).is_err() {
            return Err(RequestsFault::Memory);
        }
    }
    Ok(list)
}

/// Reads the requests of a file, or answers its first fault. The whole is tested first, and then each reservation in
/// order, by the order of [`RequestsWhy`].
///
/// # Errors
///
/// `At` with the place and the fault there: place 0 is the whole file, place n its n-th reservation. `Memory` where
/// memory runs out.
pub fn read_requests(alloc: Global, bytes: &[u8]) -> Result<Requests, RequestsFault>
    requires { length bytes.now ≤ 64 * 2 ^ 20 }
    ensures { Gives seen told result (requests_of bytes.now) }
{
    let value = match value_of(alloc, without_mark(bytes)) {
        Ok(value) => value,
        Err(fault) => return Err(fault),
    };
    let (format, moves, entries) = match top_of(&value) {
        Ok(top) => top,
        Err(why) => return Err(RequestsFault::At { place: 0, why }),
    };
    match reservations_of(alloc, format, entries.as_slice()) {
        Ok(list) => Ok(Requests { moves, list }),
        Err(fault) => Err(fault),
    }
}
