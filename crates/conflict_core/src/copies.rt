//! Copies of reservations.
ghost use Rattle.std.specs.Prelude.{◌≡◌, IfOk};

use ras_requests::{Near, Reservation, Value};
use ras_table::List;
use std::alloc::{AllocError, Global};

/// A copy of a value.
fn copy_value(alloc: Global, value: &Value) -> Result<Value, AllocError>
    ensures { IfOk result (λ copy. copy ≡ value.now) }
{
    Ok(Value {
        kind: value.kind.copy(alloc)?,
        units: value.units,
    })
}

/// A copy of values.
fn copy_values(alloc: Global, list: &List<Value>) -> Result<List<Value>, AllocError>
    ensures { IfOk result (λ copy. copy ≡ list.now) }
{
    let mut items = Vec::new(alloc);
    for item in list.as_slice() {
        items.push(copy_value(alloc, item)?)?;
    }
    Ok(List::from_vec(items))
}

/// A copy of a wish.
fn copy_near(alloc: Global, near: &Near) -> Result<Near, AllocError>
    ensures { IfOk result (λ copy. copy ≡ near.now) }
{
    Ok(Near {
        center: near.center.copy(alloc)?,
        least: near.least,
        weight: near.weight,
    })
}

/// A copy of wishes.
fn copy_nears(alloc: Global, list: &List<Near>) -> Result<List<Near>, AllocError>
    ensures { IfOk result (λ copy. copy ≡ list.now) }
{
    let mut items = Vec::new(alloc);
    for item in list.as_slice() {
        items.push(copy_near(alloc, item)?)?;
    }
    Ok(List::from_vec(items))
}

/// A copy of a reservation.
pub(crate) fn copy_reservation(alloc: Global, r: &Reservation) -> Result<Reservation, AllocError>
    ensures { IfOk result (λ copy. copy ≡ r.now) }
{
    Ok(Reservation {
        name: r.name.copy(alloc)?,
        need: r.need,
        values: copy_values(alloc, &r.values)?,
        buffer_weight: r.buffer_weight,
        spread_limit: r.spread_limit,
        spread_weight: r.spread_weight,
        rack_limit: r.rack_limit,
        rack_weight: r.rack_weight,
        near: copy_nears(alloc, &r.near)?,
        protection: r.protection,
    })
}
