ghost use Rattle.std.specs.Prelude.{◌≡◌, ◌<◌, ◌^◌, ◌≤◌, IsTrue, IfOk, length, map, zip};
ghost use Rattle.plan_model.specs.Allowed.{fits};
ghost use Rattle.online_mover.specs.States.{server_at_start as server_at_start_of};

use crate::servers::server_at_start;
use crate::stands::Server;
use plan_model::{Assignment, Case, Goal, Place, Want};
use ras_table::List;
use std::alloc::{AllocError, Global};

fn copy_places(alloc: Global, list: &List<Place>) -> Result<List<Place>, AllocError>
    ensures { IfOk result (λ copy. copy ≡ list.now) }
{
    let mut items = Vec::new(alloc);
    for item in list.as_slice() {
        items.push(*item)?;
    }
    Ok(List::from_vec(items))
}

fn copy_values(alloc: Global, list: &List<u32>) -> Result<List<u32>, AllocError>
    ensures { IfOk result (λ copy. copy ≡ list.now) }
{
    let mut items = Vec::new(alloc);
    for item in list.as_slice() {
        items.push(*item)?;
    }
    Ok(List::from_vec(items))
}

fn copy_near(alloc: Global, list: &List<Goal>) -> Result<List<Goal>, AllocError>
    ensures { IfOk result (λ copy. copy ≡ list.now) }
{
    let mut items = Vec::new(alloc);
    for item in list.as_slice() {
        items.push(*item)?;
    }
    Ok(List::from_vec(items))
}

fn copy_want(alloc: Global, want: &Want) -> Result<Want, AllocError>
    ensures { IfOk result (λ copy. copy ≡ want.now) }
{
    Ok(Want {
        need: want.need,
        values: copy_values(alloc, &want.values)?,
        buffer_weight: want.buffer_weight,
        spread_limit: want.spread_limit,
        spread_weight: want.spread_weight,
        rack_limit: want.rack_limit,
        rack_weight: want.rack_weight,
        near: copy_near(alloc, &want.near)?,
        protection: want.protection,
    })
}

fn copy_wants(alloc: Global, list: &List<Want>) -> Result<List<Want>, AllocError>
    ensures { IfOk result (λ copy. copy ≡ list.now) }
{
    let mut items = Vec::new(alloc);
    for item in list.as_slice() {
        items.push(copy_want(alloc, item)?)?;
    }
    Ok(List::from_vec(items))
}

/// A case of its own.
pub(crate) fn copy_case(alloc: Global, case: &Case) -> Result<Case, AllocError>
    ensures { IfOk result (λ copy. copy ≡ case.now) }
{
    Ok(Case {
        places: copy_places(alloc, &case.places)?,
        kinds: case.kinds,
        racks: case.racks,
        boards: case.boards,
        centers: case.centers,
        moves: case.moves,
        wants: copy_wants(alloc, &case.wants)?,
    })
}

/// The servers as they stand at the start.
pub(crate) fn servers_at_start(
    alloc: Global,
    case: &Case,
    target: &Assignment,
) -> Result<List<Server>, AllocError>
    requires { IsTrue (fits case.now target.now) }
    ensures { IfOk result (λ servers. servers ≡ map server_at_start_of (zip case.now.places target.now.of)) }
{
    let places = case.places.as_slice();
    let of = target.of.as_slice();
    let mut items = Vec::new(alloc);
    for (i, place) in places.iter().enumerate() {
        items.push(server_at_start(place, of[i]))?;
    }
    Ok(List::from_vec(items))
}
