ghost use Rattle.std.specs.Prelude.{◌≡◌, IfOk};

use crate::cases::{Assignment, Case, Want};
use ras_table::List;
use std::alloc::{AllocError, Global};

/// A copy of a list.
fn copy_list<T: Copy>(alloc: Global, list: &List<T>) -> Result<List<T>, AllocError>
    ensures { IfOk result (λ copy. copy ≡ list.now) }
{
    Ok(List::from_vec(Vec::from_slice(alloc, list.as_slice())?))
}

/// A copy of a reservation.
fn copy_want(alloc: Global, want: &Want) -> Result<Want, AllocError>
    ensures { IfOk result (λ copy. copy ≡ want.now) }
{
    Ok(Want {
        need: want.need,
        values: copy_list(alloc, &want.values)?,
        buffer_weight: want.buffer_weight,
        spread_limit: want.spread_limit,
        spread_weight: want.spread_weight,
        rack_limit: want.rack_limit,
        rack_weight: want.rack_weight,
        near: copy_list(alloc, &want.near)?,
        protection: want.protection,
    })
}

/// A copy of the reservations.
fn copy_wants(alloc: Global, list: &List<Want>) -> Result<List<Want>, AllocError>
    ensures { IfOk result (λ copy. copy ≡ list.now) }
{
    let mut items = Vec::new(alloc);
    for item in list.as_slice() {
        items.push(copy_want(alloc, item)?)?;
    }
    Ok(List::from_vec(items))
}

/// A copy of a case.
pub fn copy_case(alloc: Global, case: &Case) -> Result<Case, AllocError>
    ensures { IfOk result (λ copy. copy ≡ case.now) }
{
    Ok(Case {
        places: copy_list(alloc, &case.places)?,
        kinds: case.kinds,
        racks: case.racks,
        boards: case.boards,
        centers: case.centers,
        moves: case.moves,
        wants: copy_wants(alloc, &case.wants)?,
    })
}

/// A copy of an assignment.
pub fn copy_assignment(alloc: Global, a: &Assignment) -> Result<Assignment, AllocError>
    ensures { IfOk result (λ copy. copy ≡ a.now) }
{
    Ok(Assignment {
        of: copy_list(alloc, &a.of)?,
    })
}
