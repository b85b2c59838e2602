ghost use Rattle.std.specs.Prelude.{◌≡◌, ◌<◌, ◌^◌, ◌-◌, ◌≤◌, IfOk, IsTrue, length, map, zip};
ghost use Rattle.ras_table.specs.Names.{names_differ};
ghost use Rattle.ras_requests.specs.RequestsRule.{kind_names, reservation_rule};
ghost use Rattle.plan_model.specs.Joined.{joined_place, joined_goal, joined_want, units_for, IsJoined};

use crate::cases::{Case, Goal, Holder, Place, Want};
use ras_inventory::{Binding, Bindings, Region, Server};
use ras_requests::{Near, Requests, Reservation, Value};
use ras_table::{List, Names};
use std::alloc::{AllocError, Global};

/// A server as it stands and as it is bound.
fn place_of(requests: &Requests, server: &Server, binding: &Binding) -> Place
    ensures { result ≡ joined_place requests.now.list (server.now, binding.now) }
{
    let holder = match &binding.holder {
        None => Holder::Free,
        Some(name) => match requests.find(name.bytes()) {
            Some(r) => Holder::Held(r),
            None => Holder::Gone,
        },
    };
    Place {
        kind: server.kind,
        rack: server.rack,
        board: server.board,
        center: server.center,
        holder,
        busy: binding.busy,
        up: binding.up,
    }
}

/// Each server as it stands and as it is bound.
fn places_of(
    alloc: Global,
    region: &Region,
    requests: &Requests,
    bindings: &Bindings,
) -> Result<List<Place>, AllocError>
    requires { length bindings.now.of ≡ length region.now.servers }
    ensures { IfOk result (λ places. places ≡ map (joined_place requests.now.list) (zip region.now.servers bindings.now.of)) }
{
    let bound = bindings.of.as_slice();
    let mut places = List::new(alloc, region.servers.len())?;
    for (i, server) in region.servers.as_slice().iter().enumerate() {
        if places.push(place_of(requests, server, &bound[i])).is_err() {
            return Err(AllocError);
        }
    }
    Ok(places)
}

/// The types that some values name, in their order.
fn kinds_of(alloc: Global, values: &[Value]) -> Result<Names, AllocError>
    requires few { length values.now < 2 ^ 32 - 1 }
    requires apart { IsTrue (names_differ (kind_names values.now)) }
    ensures { IfOk result (λ kinds. kinds ≡ kind_names values.now) }
{
    let mut kinds = Names::new(alloc)?;
    for value in values {
        kinds.number(&value.kind)?;
    }
    Ok(kinds)
}

/// The units of a type of that name.
fn units_of(kinds: &Names, values: &[Value], name: &[u8]) -> u32
    requires { kinds.now ≡ kind_names values.now }
    ensures { result ≡ units_for values.now name.now }
{
    match kinds.find(name) {
        Some(at) => values[at as usize].units,
        None => 0,
    }
}

/// The units of each type of a region.
fn values_of(alloc: Global, types: &Names, values: &[Value]) -> Result<List<u32>, AllocError>
    requires few { length values.now < 2 ^ 32 - 1 }
    requires apart { IsTrue (names_differ (kind_names values.now)) }
    ensures { IfOk result (λ units. units ≡ map (units_for values.now) types.now) }
{
    let kinds = kinds_of(alloc, values)?;
    let mut units = List::new(alloc, types.len())?;
    for k in 0..types.len() {
        let name = types.name(k).unwrap();
        if units.push(units_of(&kinds, values, name.bytes())).is_err() {
            return Err(AllocError);
        }
    }
    Ok(units)
}

/// Each wish to be near a datacenter.
fn goals_of(alloc: Global, centers: &Names, near: &List<Near>) -> Result<List<Goal>, AllocError>
    ensures { IfOk result (λ goals. goals ≡ map (joined_goal centers.now) near.now) }
{
    let mut goals = List::new(alloc, near.len())?;
    for wish in near.as_slice() {
        let goal = Goal {
            center: centers.find(wish.center.bytes()),
            least: wish.least,
            weight: wish.weight,
        };
        if goals.push(goal).is_err() {
            return Err(AllocError);
        }
    }
    Ok(goals)
}

/// A reservation, with one value for each type of the region.
fn want_of(alloc: Global, region: &Region, r: &Reservation) -> Result<Want, AllocError>
    requires { IsTrue (reservation_rule r.now) }
    ensures { IfOk result (λ want. want ≡ joined_want region.now.types region.now.centers r.now) }
{
    Ok(Want {
        need: r.need,
        values: values_of(alloc, &region.types, r.values.as_slice())?,
        buffer_weight: r.buffer_weight,
        spread_limit: r.spread_limit,
        spread_weight: r.spread_weight,
        rack_limit: r.rack_limit,
        rack_weight: r.rack_weight,
        near: goals_of(alloc, &region.centers, &r.near)?,
        protection: r.protection,
    })
}

/// Each reservation, with one value for each type of the region.
fn wants_of(alloc: Global, region: &Region, requests: &Requests) -> Result<List<Want>, AllocError>
    ensures { IfOk result (λ wants. wants ≡ map (joined_want region.now.types region.now.centers) requests.now.list) }
{
    let mut wants = List::new(alloc, requests.list.len())?;
    for r in requests.list.as_slice() {
        if wants.push(want_of(alloc, region, r)?).is_err() {
            return Err(AllocError);
        }
    }
    Ok(wants)
}

/// The case of a region, requests and bindings, one for each of its servers. A server is held by the reservation of the
/// requests that has the name of its holder, and a type that a reservation does not name is worth 0 to it.
pub fn join(
    alloc: Global,
    region: &Region,
    requests: &Requests,
    bindings: &Bindings,
) -> Result<Case, AllocError>
    requires { length bindings.now.of ≡ length region.now.servers }
    ensures { IfOk result (λ case. IsJoined region.now requests.now bindings.now case) }
{
    Ok(Case {
        places: places_of(alloc, region, requests, bindings)?,
        kinds: region.types.len(),
        racks: region.racks.len(),
        boards: region.boards.len(),
        centers: region.centers.len(),
        moves: requests.moves,
        wants: wants_of(alloc, region, requests)?,
    })
}
