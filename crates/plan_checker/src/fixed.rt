//! Whether the rack phase moves only what it may.
ghost use Rattle.std.specs.Prelude.{◌≡◌, ◌<◌, ◌&&◌, IsTrue, All, length, nat_lt, slice_index_or, None};
ghost use Rattle.std.specs.Option.{option_eq};
ghost use Rattle.plan_model.specs.Units.{value_for, server_with, place_of};
ghost use Rattle.plan_model.specs.Allowed.{fits};
ghost use Rattle.plan_model.specs.Rack.{is_movable, none_or_in, some_value, keeps_to_chosen};
ghost use Rattle.plan_checker.specs.Reasons.{fixed_reason};

use crate::verdict::Reason;
use plan_model::{Assignment, Case, Place};
use ras_table::List;

/// Whether a server gets none or a chosen reservation.
fn none_or_in(chosen: &List<u32>, to: Option<u32>) -> bool
    ensures { result ≡ none_or_in chosen.now to }
{
    match to {
        None => true,
        Some(r) => chosen.as_slice().contains(&r),
    }
}

/// Whether reservation r has a value above 0 for a type.
fn has_value(case: &Case, r: u32, kind: u32) -> bool
    requires { r < length case.now.wants }
    ensures { result ≡ nat_lt 0 (value_for case.now r kind) }
{
    let wants = case.wants.as_slice();
    let values = wants[r as usize].values.as_slice();
    values.get(kind as usize).copied().unwrap_or(0) > 0
}

/// Whether some chosen reservation has a value above 0 for a type.
fn some_value(case: &Case, chosen: &List<u32>, kind: u32) -> bool
    requires { All (λ r. r < length case.now.wants) chosen.now }
    ensures { result ≡ some_value case.now chosen.now kind }
{
    for r in chosen.as_slice() {
        if has_value(case, *r, kind) {
            return true;
        }
    }
    false
}

/// Whether a server that the region part gives `from` may be moved.
fn is_movable(case: &Case, chosen: &List<u32>, place: &Place, from: Option<u32>) -> bool
    requires { All (λ r. r < length case.now.wants) chosen.now }
    ensures { result ≡ is_movable case.now chosen.now (place.now, from) }
{
    place.up && none_or_in(chosen, from) && some_value(case, chosen, place.kind)
}

/// Whether a server gets none or a chosen reservation where it may be moved, and else what the region part gives it.
fn keeps_to_chosen(
    case: &Case,
    chosen: &List<u32>,
    place: &Place,
    from: Option<u32>,
    to: Option<u32>,
) -> bool
    requires { All (λ r. r < length case.now.wants) chosen.now }
    ensures { result ≡ keeps_to_chosen case.now chosen.now ((place.now, from), to) }
{
    if is_movable(case, chosen, place, from) {
        none_or_in(chosen, to)
    } else {
        from == to
    }
}

/// The same of the server of that number.
fn is_kept(
    case: &Case,
    region: &Assignment,
    chosen: &List<u32>,
    a: &Assignment,
    server: u32,
) -> bool
    requires region { IsTrue (fits case.now region.now) }
    requires a { IsTrue (fits case.now a.now) }
    requires chosen { All (λ r. r < length case.now.wants) chosen.now }
    requires server { server < length case.now.places }
    ensures { result ≡ keeps_to_chosen case.now chosen.now (server_with case.now region.now server, slice_index_or a.now.of server None) }
{
    let place = &case.places.as_slice()[server as usize];
    let from = region.of.as_slice()[server as usize];
    let to = a.of.as_slice()[server as usize];
    keeps_to_chosen(case, chosen, place, from, to)
}

/// The first server that is moved and may not be, or is bound to a reservation that is not chosen.
pub fn fixed_reason(
    case: &Case,
    region: &Assignment,
    chosen: &List<u32>,
    a: &Assignment,
) -> Option<Reason>
    requires region { IsTrue (fits case.now region.now) }
    requires a { IsTrue (fits case.now a.now) }
    requires chosen { All (λ r. r < length case.now.wants) chosen.now }
    ensures { result ≡ fixed_reason case.now region.now chosen.now a.now }
{
    for server in 0..case.places.len() {
        if !is_kept(case, region, chosen, a, server) {
            return Some(Reason::Fixed { server });
        }
    }
    None
}
