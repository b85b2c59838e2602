ghost use Rattle.std.specs.Prelude.{◌≡◌, ◌≤◌, None, IfOk, true, map, length, not, ◌||◌, nat_lt};
ghost use Rattle.std.specs.List.{list_any};
ghost use Rattle.std.specs.Str.{bytes_eq};
ghost use Rattle.ras_table.specs.Names.{names_differ};
ghost use Rattle.ras_requests.specs.RequestsRule.{moves_in_range, value_in_range, near_in_range, numbers_in_range, reservation_in_range, center_names};
ghost use Rattle.ras_requests.specs.Requested.{is_too_long, stands_before, first_fault};
ghost use Rattle.ras_requests.specs.Within.{WithinLimits};
ghost use Rattle.ras_requests.specs.Drafts.{seen_costs, seen_units, seen_values, seen_aim, seen_aims, seen_draft};
ghost use Rattle.std.specs.List.{list_all};

use crate::draft::{Aim, Costs, Draft, Units};
use crate::fault::RequestsWhy;
use crate::requests::{Moves, Near, Reservation, Value};
use ras_table::List;
use std::alloc::{AllocError, Global};

/// Whether no cost is too large.
pub fn moves_in_range(costs: Costs) -> bool
    ensures { result ≡ moves_in_range (seen_costs costs) }
{
    costs.take <= 10_000 && costs.idle <= 10_000 && costs.busy <= 10_000
}

/// The move costs, which are not too large.
pub fn moves_from(costs: Costs) -> Moves
    requires { moves_in_range (seen_costs costs) ≡ true }
    ensures { result ≡ seen_costs costs }
{
    Moves {
        take: costs.take as u32,
        idle: costs.idle as u32,
        busy: costs.busy as u32,
    }
}

// Whether no value is too large.
fn values_in_range(values: &[Units]) -> bool
    ensures { result ≡ list_all (λ v. value_in_range (seen_units v)) values.now }
{
    values.iter().all(|v| v.units <= 1000)
}

// Whether no number of a wish is too large.
fn aims_in_range(near: &[Aim]) -> bool
    ensures { result ≡ list_all (λ n. near_in_range (seen_aim n)) near.now }
{
    near.iter()
        .all(|n| n.least <= 10_000_000 && n.weight <= 10_000)
}

// Whether no number of a reservation itself is too large.
fn numbers_in_range(draft: &Draft) -> bool
    ensures { result ≡ numbers_in_range (seen_draft draft.now) }
{
    let p = draft.penalties;
    draft.need <= 10_000_000
        && p.spread_limit <= 10_000_000
        && p.rack_limit <= 10_000_000
        && p.buffer_weight <= 10_000
        && p.spread_weight <= 10_000
        && p.rack_weight <= 10_000
}

// Whether the numbers of a reservation, its values and its wishes are in their ranges.
#[tactic(auto, using(crate::proofs::LimitsLemmas::values_mapped, crate::proofs::LimitsLemmas::near_mapped))]
fn is_in_range(draft: &Draft) -> bool
    ensures { result ≡ reservation_in_range (seen_draft draft.now) }
{
    numbers_in_range(draft)
        && values_in_range(draft.values.as_slice())
        && aims_in_range(draft.near.as_slice())
}

// Whether a datacenter is among wishes.
fn has_center(near: &[Aim], center: &[u8]) -> bool
    ensures { result ≡ list_any (λ n. bytes_eq center.now n.center) near.now }
{
    near.iter().any(|n| center == n.center.bytes())
}

// Whether no datacenter stands twice.
fn centers_differ(near: &[Aim]) -> bool
    ensures { result ≡ names_differ (center_names (map seen_aim near.now)) }
{
    for i in 0..near.len() {
        if has_center(&near[i + 1..], near[i].center.bytes()) {
            return false;
        }
    }
    true
}

// Whether a reservation's name stood before.
fn stands_before(before: &[Reservation], draft: &Draft) -> bool
    ensures { result ≡ stands_before before.now (seen_draft draft.now) }
{
    before.iter().any(|b| b.name.bytes() == draft.name.bytes())
}

// Whether there are too many values or wishes.
fn is_too_long(draft: &Draft) -> bool
    ensures { result ≡ is_too_long (seen_draft draft.now) }
{
    draft.values.len() > 1000 || draft.near.len() > 16
}

/// The first fault of a reservation that has its shape, after the reservations before it.
pub fn first_fault(before: &[Reservation], draft: &Draft) -> Option<RequestsWhy>
    ensures { result ≡ first_fault before.now (seen_draft draft.now) }
{
    if !is_in_range(draft) {
        Some(RequestsWhy::Range)
    } else if is_too_long(draft) {
        Some(RequestsWhy::Many)
    } else if stands_before(before, draft) || !centers_differ(draft.near.as_slice()) {
        Some(RequestsWhy::Twice)
    } else {
        None
    }
}

// Values that are not too large.
fn values_from(alloc: Global, values: &[Units]) -> Result<List<Value>, AllocError>
    requires few { length values.now ≤ 1000 }
    requires range { list_all (λ v. value_in_range (seen_units v)) values.now ≡ true }
    ensures { IfOk result (λ list. list ≡ map seen_units values.now) }
{
    let mut list = List::new(alloc, values.len() as u32)?;
    for value in values {
        let kind = value.kind.copy(alloc)?;
        let units = value.units as u32;
        if list.push(Value { kind, units }).is_err() {
            return Err(AllocError);
        }
    }
    Ok(list)
}

// Wishes whose numbers are not too large.
fn near_from(alloc: Global, near: &[Aim]) -> Result<List<Near>, AllocError>
    requires few { length near.now ≤ 16 }
    requires range { list_all (λ n. near_in_range (seen_aim n)) near.now ≡ true }
    ensures { IfOk result (λ list. list ≡ map seen_aim near.now) }
{
    let mut list = List::new(alloc, near.len() as u32)?;
    for aim in near {
        let center = aim.center.copy(alloc)?;
        let (least, weight) = (aim.least as u32, aim.weight as u32);
        let wish = Near {
            center,
            least,
            weight,
        };
        if list.push(wish).is_err() {
            return Err(AllocError);
        }
    }
    Ok(list)
}

/// A reservation that is within its limits.
pub fn reservation_from(alloc: Global, draft: &Draft) -> Result<Reservation, AllocError>
    requires { WithinLimits draft.now }
    ensures { IfOk result (λ reservation. reservation ≡ seen_draft draft.now) }
{
    let p = draft.penalties;
    Ok(Reservation {
        name: draft.name.copy(alloc)?,
        need: draft.need as u32,
        values: values_from(alloc, draft.values.as_slice())?,
        buffer_weight: p.buffer_weight as u32,
        spread_limit: p.spread_limit as u32,
        spread_weight: p.spread_weight as u32,
        rack_limit: p.rack_limit as u32,
        rack_weight: p.rack_weight as u32,
        near: near_from(alloc, draft.near.as_slice())?,
        protection: draft.protection,
    })
}
