ghost use Rattle.std.specs.Prelude.{◌≡◌, ◌<◌, ◌≤◌, ◌+◌, ◌*◌, ◌-◌, IsTrue, length, sum, sum_by, min};
ghost use Rattle.plan_model.specs.Units.{want_of, server_with, servers_with_places};
ghost use Rattle.plan_model.specs.Allowed.{fits};
ghost use Rattle.plan_model.specs.Levels.{units_in_each};
ghost use Rattle.plan_model.specs.declared.levels.Level.TheVariants.{Rack};
ghost use Rattle.plan_model.specs.Costs.{move_cost as move_cost_of, region_cost as region_cost_of, rack_excess as rack_excess_of, rack_cost as rack_cost_of, greatest, excess, shortage_cost, terms_cost};
ghost use Rattle.plan_model.specs.CaseRule.{goal_in_range};
ghost use Rattle.plan_model.specs.CaseLimits.{WantLimits};
ghost use Rattle.plan_model.specs.Chosen.{AreChosen};
ghost use Rattle.std.specs.List.{list_all};

use crate::cases::{Assignment, Case, Goal, Holder, Place, Want};
use crate::levels::Level;
use crate::sums::units_in;
use crate::tables::{BLOCK, units_by_number};
use ras_table::List;

/// What the move of a server costs.
fn cost_at(case: &Case, place: &Place, to: Option<u32>) -> u32
    ensures cost { result ≡ move_cost_of case.now.moves (place.now, to) }
    ensures most { result ≤ 10000 }
{
    if !place.up {
        return 0;
    }
    match (place.holder, to) {
        (Holder::Held(q), Some(r)) if q == r => 0,
        (Holder::Held(_), _) => if place.busy {
            case.moves.busy
        } else {
            case.moves.idle
        },
        (_, Some(_)) => case.moves.take,
        (_, None) => 0,
    }
}

/// What the move of one server costs.
pub fn move_cost(case: &Case, a: &Assignment, server: u32) -> u64
    requires fitting { IsTrue (fits case.now a.now) }
    requires in_range { server < length case.now.places }
    ensures { result ≡ move_cost_of case.now.moves (server_with case.now a.now server) }
{
    let place = &case.places.as_slice()[server as usize];
    u64::from(cost_at(case, place, a.of.as_slice()[server as usize]))
}

/// What the moves of all servers cost.
fn moves_cost(case: &Case, a: &Assignment) -> u64
    requires { IsTrue (fits case.now a.now) }
    ensures cost { result ≡ sum_by (move_cost_of case.now.moves) (servers_with_places case.now a.now) }
    ensures most { result ≤ 200000000 }
{
    let places = case.places.as_slice();
    let of = a.of.as_slice();
    let mut sum = 0u64;
    for (i, place) in places.iter().enumerate() {
        sum += u64::from(cost_at(case, place, of[i]));
    }
    sum
}

/// The largest of some amounts.
fn largest_of(amounts: &[u64]) -> u64
    requires { sum amounts.now ≤ 20000000 }
    ensures largest { result ≡ greatest amounts.now }
    ensures most { result ≤ 20000000 }
{
    let mut largest = 0u64;
    for amount in amounts {
        largest = largest.max(*amount);
    }
    largest
}

/// What stands above a limit in some amounts.
fn excess_over(amounts: &[u64], limit: u32) -> u64
    requires { sum amounts.now ≤ 20000000 }
    ensures excess { result ≡ excess limit amounts.now }
    ensures within { result ≤ sum amounts.now }
{
    let mut over = 0u64;
    for amount in amounts {
        over += amount.saturating_sub(u64::from(limit));
    }
    over
}

/// What the units of one reservation on each switchboard cost.
fn board_terms(want: &Want, on: &[u64]) -> u64
    requires limits { WantLimits want.now }
    requires few { sum on.now ≤ 20000000 }
    ensures cost { result ≡ want.now.buffer_weight * greatest on.now + want.now.spread_weight * excess want.now.spread_limit on.now }
    ensures most { result ≤ 400000000000 }
{
    u64::from(want.buffer_weight) * largest_of(on)
        + u64::from(want.spread_weight) * excess_over(on, want.spread_limit)
}

/// What the shortage at one near entry costs.
fn shortage(case: &Case, a: &Assignment, r: u32, goal: &Goal) -> u64
    requires fitting { IsTrue (fits case.now a.now) }
    requires in_range { r < length case.now.wants }
    requires goal { IsTrue (goal_in_range case.now.centers goal.now) }
    ensures cost { result ≡ shortage_cost case.now a.now r goal.now }
    ensures most { result ≤ 100000000000 }
{
    let there = match goal.center {
        Some(center) => units_in(case, a, r, Level::Center, center),
        None => 0,
    };
    u64::from(goal.weight) * u64::from(goal.least).saturating_sub(there)
}

/// The reservation of that number, within its limits.
pub(crate) fn want_at(case: &Case, r: u32) -> &Want
    requires { r < length case.now.wants }
    ensures want { result.now ≡ want_of case.now r }
    ensures limits { WantLimits result.now }
    ensures near { IsTrue (list_all (goal_in_range case.now.centers) result.now.near) }
{
    &case.wants.as_slice()[r as usize]
}

/// What the shortages at all near entries cost.
fn shortages(case: &Case, a: &Assignment, r: u32) -> u64
    requires fitting { IsTrue (fits case.now a.now) }
    requires in_range { r < length case.now.wants }
    ensures cost { result ≡ sum_by (shortage_cost case.now a.now r) (want_of case.now r).near }
    ensures most { result ≤ 1600000000000 }
{
    let want = want_at(case, r);
    let mut sum = 0u64;
    for goal in want.near.as_slice() {
        sum += shortage(case, a, r, goal);
    }
    sum
}

/// The terms of one reservation: what its largest switchboard, its excess on switchboards and its shortages cost.
pub fn terms(case: &Case, a: &Assignment, r: u32) -> u64
    requires fitting { IsTrue (fits case.now a.now) }
    requires in_range { r < length case.now.wants }
    ensures cost { result ≡ terms_cost case.now a.now r }
    ensures most { result ≤ 2000000000000 }
{
    let on = units_by_number(case, a, r, Level::Board, 0);
    board_terms(want_at(case, r), &on[..case.boards as usize]) + shortages(case, a, r)
}

/// What the assignment costs in the region phase: the moves of all servers, and the terms of each reservation.
pub fn region_cost(case: &Case, a: &Assignment) -> u64
    requires { IsTrue (fits case.now a.now) }
    ensures cost { result ≡ region_cost_of case.now a.now }
    ensures most { result ≤ 128200000000000 }
{
    let mut sum = moves_cost(case, a);
    for r in 0..case.wants.len() {
        sum += terms(case, a, r);
    }
    sum
}

/// The units of reservation r above its rack limit in the racks of one block, each counted in one pass over the servers.
fn excess_in_block(case: &Case, a: &Assignment, r: u32, limit: u32, first: u32) -> u64
    requires fitting { IsTrue (fits case.now a.now) }
    requires in_range { r < length case.now.wants }
    requires first { first ≤ case.now.racks }
    ensures excess { let count = min 256 (case.now.racks - first) in
        result ≡ excess limit (units_in_each Rack case.now a.now r first count) }
    ensures within { let count = min 256 (case.now.racks - first) in
        result ≤ sum (units_in_each Rack case.now a.now r first count) }
{
    let count = BLOCK.min(case.racks - first);
    let on = units_by_number(case, a, r, Level::Rack, first);
    excess_over(&on[..count as usize], limit)
}

/// What the units of reservation r above its rack limit on each rack cost. One pass over the servers for each 256 racks.
pub fn rack_excess(case: &Case, a: &Assignment, r: u32) -> u64
    requires fitting { IsTrue (fits case.now a.now) }
    requires in_range { r < length case.now.wants }
    ensures cost { result ≡ rack_excess_of case.now a.now r }
    ensures most { result ≤ 200000000000 }
{
    let want = want_at(case, r);
    let mut over = 0u64;
    for block in 0..case.racks.div_ceil(BLOCK) {
        over += excess_in_block(case, a, r, want.rack_limit, block * BLOCK);
    }
    u64::from(want.rack_weight) * over
}

/// What the assignment costs in the rack phase: its region cost, and the rack excess of each chosen reservation.
pub fn rack_cost(case: &Case, a: &Assignment, chosen: &List<u32>) -> u64
    requires fitting { IsTrue (fits case.now a.now) }
    requires chosen { AreChosen case.now chosen.now }
    ensures cost { result ≡ rack_cost_of case.now a.now chosen.now }
    ensures most { result ≤ 141000000000000 }
{
    let mut sum = region_cost(case, a);
    for r in chosen.as_slice() {
        sum += rack_excess(case, a, *r);
    }
    sum
}
