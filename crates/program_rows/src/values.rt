//! Single numbers of a case.
ghost use Rattle.std.specs.Prelude.{◌≡◌, ◌<◌, ◌≤◌, IsTrue, length};
ghost use Rattle.plan_model.specs.Units.{value_for, want_of};
ghost use Rattle.std.specs.List.{list_all};
ghost use Rattle.plan_model.specs.CaseRule.{goal_in_range};
ghost use Rattle.plan_model.specs.CaseLimits.{WantLimits};
ghost use Rattle.plan_model.specs.Costs.{up_move_cost};

use plan_model::{Case, Holder, Want};

/// The value of reservation r for a type of server, 0 to 1,000.
pub(crate) fn value(case: &Case, r: u32, kind: u32) -> u32
    requires { r < length case.now.wants }
    ensures value { result ≡ value_for case.now r kind }
    ensures most { result ≤ 1000 }
{
    let wants = case.wants.as_slice();
    let want = &wants[r as usize];
    let values = want.values.as_slice();
    values.get(kind as usize).copied().unwrap_or(0)
}

/// The reservation of that number, within its limits.
pub(crate) fn want_at(case: &Case, r: u32) -> &Want
    requires { r < length case.now.wants }
    ensures want { result.now ≡ want_of case.now r }
    ensures limits { WantLimits result.now }
    ensures spread { result.now.spread_limit ≤ 10000000 }
    ensures rack { result.now.rack_limit ≤ 10000000 }
    ensures near { IsTrue (list_all (goal_in_range case.now.centers) result.now.near) }
{
    &case.wants.as_slice()[r as usize]
}

/// What an up server with this holder and busy flag costs where it goes to a reservation or to none.
pub(crate) fn up_cost(case: &Case, holder: Holder, busy: bool, to: Option<u32>) -> u32
    ensures cost { result ≡ up_move_cost case.now.moves holder busy to }
    ensures most { result ≤ 10000 }
{
    match (holder, to) {
        (Holder::Held(q), Some(r)) if q == r => 0,
        (Holder::Held(_), _) => if busy {
            case.moves.busy
        } else {
            case.moves.idle
        },
        (_, Some(_)) => case.moves.take,
        (_, None) => 0,
    }
}
