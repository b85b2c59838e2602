//! Single numbers of a case.
ghost use Rattle.std.specs.Prelude.{◌≡◌, ◌<◌, ◌≤◌, IsTrue, None, length, slice_index_or};
ghost use Rattle.std.specs.List.{list_all};
ghost use Rattle.plan_model.specs.CaseLimits.{WantLimits};
ghost use Rattle.plan_model.specs.CaseRule.{goal_in_range};
ghost use Rattle.plan_model.specs.Costs.{move_cost as move_cost_of};
ghost use Rattle.plan_model.specs.Units.{place_of, value_for, want_of};

use plan_model::{Assignment, Case, Holder, Place, Want};

/// The value of reservation r for a type of server, 0 to 1,000.
pub(crate) fn value(case: &Case, r: u32, kind: u32) -> u32
    requires { r < length case.now.wants }
    ensures value { result ≡ value_for case.now r kind }
    ensures most { result ≤ 1000 }
{
    let wants = case.wants.as_slice();
    let want = &wants[r as usize];
    let values = want.values.as_slice();
    values.get(kind as usize).copied().unwrap_or(0)
}

/// The reservation of that number, within its limits.
pub(crate) fn want_at(case: &Case, r: u32) -> &Want
    requires { r < length case.now.wants }
    ensures want { result.now ≡ want_of case.now r }
    ensures limits { WantLimits result.now }
    ensures near { IsTrue (list_all (goal_in_range case.now.centers) result.now.near) }
{
    &case.wants.as_slice()[r as usize]
}

/// The server of that number.
pub(crate) fn place_at(case: &Case, server: u32) -> Place
    requires { server < length case.now.places }
    ensures { result ≡ place_of case.now server }
{
    case.places.as_slice()[server as usize]
}

/// What the move of a server costs.
pub(crate) fn cost_at(case: &Case, place: &Place, to: Option<u32>) -> u32
    ensures cost { result ≡ move_cost_of case.now.moves (place.now, to) }
    ensures most { result ≤ 10000 }
{
    if !place.up {
        return 0;
    }
    match (place.holder, to) {
        (Holder::Held(q), Some(r)) if q == r => 0,
        (Holder::Held(_), _) => if place.busy {
            case.moves.busy
        } else {
            case.moves.idle
        },
        (_, Some(_)) => case.moves.take,
        (_, None) => 0,
    }
}

/// What a server gets.
pub(crate) fn place_in(a: &Assignment, server: u32) -> Option<u32>
    requires { server < length a.now.of }
    ensures { result ≡ slice_index_or a.now.of server None }
{
    a.of.as_slice()[server as usize]
}
