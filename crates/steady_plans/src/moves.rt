//! Settling: each server gets the place of least cost, until none is cheaper.
ghost use Rattle.std.specs.Prelude.{◌≡◌, ◌+◌, ◌<◌, ◌≤◌, ◌⊎◌, ◌||◌, ℕ, Option, IsTrue, None, OnErr, OnOk, Some, false, length, nat_lt, slice_index_or, true};
ghost use Rattle.std.specs.Option.{option_map_or};
ghost use Rattle.plan_model.specs.Allowed.{fits, keeps_need as keeps_need_of};
ghost use Rattle.plan_model.specs.Rack.{is_movable};
ghost use Rattle.plan_model.specs.Units.{server_with};
ghost use Rattle.program_rows.specs.Phases.{IsStart, phase_allowed, phase_cost, start_allowed};
ghost use Rattle.program_rows.specs.Settings.{setting_of, start_fits};
ghost use Rattle.steady_plans.specs.Local.{IsPrice, may_take as may_take_of};
ghost use Rattle.steady_plans.specs.Steady.{IsSettledAt, IsSteady, replaced};
ghost use Rattle.steady_plans.specs.Tables.{AreSumsOf};
ghost use Rattle.steady_plans.specs.Tried.{HasRoom};

use crate::alike::{are_alike, is_same};
use crate::local::{is_active, keeps_need, local_cost};
use crate::sums::{Sums, put, put_place, sums_of, take, take_place};
use crate::tried::{Tried, last_tried, none_tried, note_tried};
use crate::values::{cost_at, place_at, place_in, value};
use plan_model::{Assignment, Case};
use program_rows::{Phase, movable};
use std::alloc::{AllocError, Global};

/// More than any local cost.
const OFFSET: u64 = 1_125_899_906_842_624;

/// A place for a server, and its price.
#[derive(Clone, Copy)]
struct Choice {
    to: Option<u32>,
    price: u64,
}

/// The price of a reservation for a server, by the sums of the assignment without that server.
fn reservation_price(
    case: &Case,
    phase: &Phase<'_>,
    sums: &mut Sums,
    a: &Assignment,
    server: u32,
    r: u32,
) -> u64
    requires start { IsStart case.now (setting_of case.now phase.now) }
    requires size { length a.now.of ≡ length case.now.places }
    requires in_range { server < length case.now.places }
    requires there { r < length case.now.wants }
    requires sums { AreSumsOf case.now (replaced a.now server None) sums.old }
    ensures price { IsPrice case.now (setting_of case.now phase.now) a.now server (Some r) result }
    ensures sums { AreSumsOf case.now (replaced a.now server None) sums.new }
{
    let place = place_at(case, server);
    let before = local_cost(case, phase, sums, r, place.rack);
    put(sums, case, server, r);
    let after = local_cost(case, phase, sums, r, place.rack);
    take(sums, case, server, r);
    let moving = u64::from(cost_at(case, &place, Some(r)));
    OFFSET + moving + after - before
}

/// The price of a place for a server, by the sums of the assignment without that server.
fn price(
    case: &Case,
    phase: &Phase<'_>,
    sums: &mut Sums,
    a: &Assignment,
    server: u32,
    to: Option<u32>,
) -> u64
    requires start { IsStart case.now (setting_of case.now phase.now) }
    requires size { length a.now.of ≡ length case.now.places }
    requires in_range { server < length case.now.places }
    requires there { IsTrue (option_map_or (λ r. nat_lt r (length case.now.wants)) to true) }
    requires sums { AreSumsOf case.now (replaced a.now server None) sums.old }
    ensures price { IsPrice case.now (setting_of case.now phase.now) a.now server to result }
    ensures sums { AreSumsOf case.now (replaced a.now server None) sums.new }
{
    match to {
        Some(r) => reservation_price(case, phase, sums, a, server, r),
        None => {
            let place = place_at(case, server);
            let moving = u64::from(cost_at(case, &place, None));
            OFFSET + moving
        }
    }
}

/// Whether a server may take a reservation: it is active, and has a value above 0 for the server's type.
fn may_take(case: &Case, phase: &Phase<'_>, server: u32, r: u32) -> bool
    requires in_range { server < length case.now.places }
    requires there { r < length case.now.wants }
    ensures { result ≡ may_take_of case.now (setting_of case.now phase.now) server (Some r) }
{
    let place = place_at(case, server);
    value(case, r, place.kind) > 0 && is_active(case, phase, r)
}

/// The cheaper of two choices, and the first where they cost the same.
fn cheaper(first: Choice, second: Choice) -> Choice
    ensures kept { first.price ≤ second.price → result ≡ first }
    ensures taken { second.price < first.price → result ≡ second }
{
    if second.price < first.price {
        second
    } else {
        first
    }
}

/// The best choice so far, or a reservation that the server may take and that is cheaper.
fn try_reservation(
    case: &Case,
    phase: &Phase<'_>,
    sums: &mut Sums,
    a: &Assignment,
    server: u32,
    r: u32,
    best: Choice,
) -> Choice
    requires start { IsStart case.now (setting_of case.now phase.now) }
    requires size { length a.now.of ≡ length case.now.places }
    requires in_range { server < length case.now.places }
    requires there { r < length case.now.wants }
    requires sums { AreSumsOf case.now (replaced a.now server None) sums.old }
    requires best { IsPrice case.now (setting_of case.now phase.now) a.now server best.to best.price }
    ensures sums { AreSumsOf case.now (replaced a.now server None) sums.new }
    ensures price { IsPrice case.now (setting_of case.now phase.now) a.now server result.to result.price }
    ensures tried { may_take_of case.now (setting_of case.now phase.now) server (Some r) ≡ true
        → phase_cost case.now (setting_of case.now phase.now) (replaced a.now server result.to) ≤ phase_cost case.now (setting_of case.now phase.now) (replaced a.now server (Some r)) }
    ensures which { (result ≡ best) ⊎ ((may_take_of case.now (setting_of case.now phase.now) server result.to ≡ true) × (result.price < best.price)) }
{
    if may_take(case, phase, server, r) {
        let found = reservation_price(case, phase, sums, a, server, r);
        let next = Choice {
            to: Some(r),
            price: found,
        };
        return cheaper(best, next);
    }
    best
}

/// The best place for a server, by the sums of the assignment without it: the place that it has, unless another that it
/// may take is cheaper.
fn best_place(
    case: &Case,
    phase: &Phase<'_>,
    sums: &mut Sums,
    a: &Assignment,
    server: u32,
    from: Option<u32>,
) -> Option<u32>
    requires start { IsStart case.now (setting_of case.now phase.now) }
    requires size { length a.now.of ≡ length case.now.places }
    requires in_range { server < length case.now.places }
    requires there { IsTrue (option_map_or (λ r. nat_lt r (length case.now.wants)) from true) }
    requires sums { AreSumsOf case.now (replaced a.now server None) sums.old }
    ensures sums { AreSumsOf case.now (replaced a.now server None) sums.new }
    ensures which { (result ≡ from)
        ⊎ ((may_take_of case.now (setting_of case.now phase.now) server result ≡ true)
        × (phase_cost case.now (setting_of case.now phase.now) (replaced a.now server result) < phase_cost case.now (setting_of case.now phase.now) (replaced a.now server from))) }
    ensures least { (to : Option ℕ) → may_take_of case.now (setting_of case.now phase.now) server to ≡ true
        → phase_cost case.now (setting_of case.now phase.now) (replaced a.now server result) ≤ phase_cost case.now (setting_of case.now phase.now) (replaced a.now server to) }
{
    let kept_price = price(case, phase, sums, a, server, from);
    let free_price = price(case, phase, sums, a, server, None);
    let kept = Choice {
        to: from,
        price: kept_price,
    };
    let freed = Choice {
        to: None,
        price: free_price,
    };
    let mut best = cheaper(kept, freed);
    for r in 0..case.wants.len() {
        best = try_reservation(case, phase, sums, a, server, r, best);
    }
    best.to
}

/// Whether a server may leave its place: the reservation that it has, if any, keeps its need without it.
fn may_leave(case: &Case, sums: &Sums, a: &Assignment, server: u32, from: Option<u32>) -> bool
    requires in_range { server < length case.now.places }
    requires there { IsTrue (option_map_or (λ r. nat_lt r (length case.now.wants)) from true) }
    requires sums { AreSumsOf case.now (replaced a.now server None) sums.now }
    ensures { result ≡ option_map_or (keeps_need_of case.now (replaced a.now server None)) from true }
{
    match from {
        Some(r) => keeps_need(case, sums, r),
        None => true,
    }
}

/// The place that a server is to get: the best that it may take, or the one that it has where it may not leave that.
fn next_place(
    case: &Case,
    phase: &Phase<'_>,
    sums: &mut Sums,
    a: &Assignment,
    server: u32,
    from: Option<u32>,
) -> Option<u32>
    requires start { IsStart case.now (setting_of case.now phase.now) }
    requires in_range { server < length case.now.places }
    requires from { slice_index_or a.now.of server None ≡ from }
    requires movable { is_movable case.now (setting_of case.now phase.now).active (server_with case.now (setting_of case.now phase.now).start server) ≡ true }
    requires allowed { IsTrue (phase_allowed case.now (setting_of case.now phase.now) a.now) }
    requires sums { AreSumsOf case.now (replaced a.now server None) sums.old }
    ensures sums { AreSumsOf case.now (replaced a.now server None) sums.new }
    ensures allowed { IsTrue (phase_allowed case.now (setting_of case.now phase.now) (replaced a.now server result)) }
    ensures less { (result ≡ from) ⊎ (phase_cost case.now (setting_of case.now phase.now) (replaced a.now server result) < phase_cost case.now (setting_of case.now phase.now) a.now) }
    ensures settled { result ≡ from → IsSettledAt case.now (setting_of case.now phase.now) a.now server }
{
    if may_leave(case, sums, a, server, from) {
        return best_place(case, phase, sums, a, server, from);
    }
    from
}

/// Gives a server that the phase may move the best place that the phase allows, and tells whether that is another one.
fn settle_movable(
    case: &Case,
    phase: &Phase<'_>,
    sums: &mut Sums,
    a: &mut Assignment,
    server: u32,
) -> bool
    requires start { IsStart case.now (setting_of case.now phase.now) }
    requires in_range { server < length case.now.places }
    requires movable { is_movable case.now (setting_of case.now phase.now).active (server_with case.now (setting_of case.now phase.now).start server) ≡ true }
    requires allowed { IsTrue (phase_allowed case.now (setting_of case.now phase.now) a.old) }
    requires sums { AreSumsOf case.now a.old sums.old }
    ensures sums { AreSumsOf case.now a.new sums.new }
    ensures allowed { IsTrue (phase_allowed case.now (setting_of case.now phase.now) a.new) }
    ensures less { result ≡ true → phase_cost case.now (setting_of case.now phase.now) a.new < phase_cost case.now (setting_of case.now phase.now) a.old }
    ensures settled { result ≡ false → (a.new ≡ a.old) × IsSettledAt case.now (setting_of case.now phase.now) a.old server }
{
    let from = place_in(a, server);
    take_place(sums, case, server, from);
    let to = next_place(case, phase, sums, a, server, from);
    put_place(sums, case, server, to);
    if is_same(to, from) {
        return false;
    }
    a.of.set(server, to);
    true
}

/// Gives a server the best place that the phase allows, and tells whether that is another one than it had.
fn settle_server(
    case: &Case,
    phase: &Phase<'_>,
    sums: &mut Sums,
    a: &mut Assignment,
    server: u32,
) -> bool
    requires start { IsStart case.now (setting_of case.now phase.now) }
    requires fitting { IsTrue (start_fits case.now phase.now) }
    requires in_range { server < length case.now.places }
    requires allowed { IsTrue (phase_allowed case.now (setting_of case.now phase.now) a.old) }
    requires sums { AreSumsOf case.now a.old sums.old }
    ensures sums { AreSumsOf case.now a.new sums.new }
    ensures allowed { IsTrue (phase_allowed case.now (setting_of case.now phase.now) a.new) }
    ensures less { result ≡ true → phase_cost case.now (setting_of case.now phase.now) a.new < phase_cost case.now (setting_of case.now phase.now) a.old }
    ensures settled { result ≡ false → (a.new ≡ a.old) × IsSettledAt case.now (setting_of case.now phase.now) a.old server }
{
    if movable(case, phase, server) {
        return settle_movable(case, phase, sums, a, server);
    }
    false
}

/// Whether a server is like one that was tried since the last change.
fn is_like_settled(
    case: &Case,
    phase: &Phase<'_>,
    a: &Assignment,
    tried: Option<u32>,
    first: u32,
    server: u32,
) -> bool
    requires start { IsStart case.now (setting_of case.now phase.now) }
    requires fitting { IsTrue (start_fits case.now phase.now) }
    requires in_range { server < length case.now.places }
    requires allowed { IsTrue (phase_allowed case.now (setting_of case.now phase.now) a.now) }
    requires settled { (t : ℕ) → first ≤ t → t < server → IsSettledAt case.now (setting_of case.now phase.now) a.now t }
    ensures { result ≡ true → IsSettledAt case.now (setting_of case.now phase.now) a.now server }
{
    let Some(t) = tried else {
        return false;
    };
    if t < first {
        return false;
    }
    if t >= server {
        return false;
    }
    are_alike(case, phase, a, server, t)
}

/// The same, but for a server that is like one that was tried since the last change: nothing needs to be tried for it. All
/// servers from `first` on that stand before it are settled.
fn settle_next(
    case: &Case,
    phase: &Phase<'_>,
    sums: &mut Sums,
    tried: &mut Tried,
    a: &mut Assignment,
    first: u32,
    server: u32,
) -> bool
    requires start { IsStart case.now (setting_of case.now phase.now) }
    requires fitting { IsTrue (start_fits case.now phase.now) }
    requires in_range { server < length case.now.places }
    requires allowed { IsTrue (phase_allowed case.now (setting_of case.now phase.now) a.old) }
    requires sums { AreSumsOf case.now a.old sums.old }
    requires room { HasRoom case.now tried.old }
    requires settled { (t : ℕ) → first ≤ t → t < server → IsSettledAt case.now (setting_of case.now phase.now) a.old t }
    ensures sums { AreSumsOf case.now a.new sums.new }
    ensures room { HasRoom case.now tried.new }
    ensures allowed { IsTrue (phase_allowed case.now (setting_of case.now phase.now) a.new) }
    ensures less { result ≡ true → phase_cost case.now (setting_of case.now phase.now) a.new < phase_cost case.now (setting_of case.now phase.now) a.old }
    ensures settled { result ≡ false → (a.new ≡ a.old) × IsSettledAt case.now (setting_of case.now phase.now) a.old server }
{
    let from = place_in(a, server);
    let alike = last_tried(case, tried, server, from);
    if is_like_settled(case, phase, a, alike, first, server) {
        return false;
    }
    note_tried(case, tried, server, from);
    settle_server(case, phase, sums, a, server)
}

/// The first server since the last change: the next one, where this server changed.
fn first_after(first: u32, server: u32, changed: bool) -> u32
    requires { server < 4294967295 }
    ensures moved { changed ≡ true → result ≡ server + 1 }
    ensures kept { changed ≡ false → result ≡ first }
{
    if changed {
        return server + 1;
    }
    first
}

/// Whether one of the two holds.
fn either(first: bool, second: bool) -> bool
    ensures { result ≡ (first || second) }
{
    first || second
}

/// Gives each server in order the best place that the phase allows, and tells whether one of them got another place. Of
/// servers that are alike and get the same, one is tried for all until something changes.
fn settle_each(
    case: &Case,
    phase: &Phase<'_>,
    sums: &mut Sums,
    tried: &mut Tried,
    a: &mut Assignment,
) -> bool
    requires start { IsStart case.now (setting_of case.now phase.now) }
    requires fitting { IsTrue (start_fits case.now phase.now) }
    requires allowed { IsTrue (phase_allowed case.now (setting_of case.now phase.now) a.old) }
    requires sums { AreSumsOf case.now a.old sums.old }
    requires room { HasRoom case.now tried.old }
    ensures sums { AreSumsOf case.now a.new sums.new }
    ensures room { HasRoom case.now tried.new }
    ensures allowed { IsTrue (phase_allowed case.now (setting_of case.now phase.now) a.new) }
    ensures less { result ≡ true → phase_cost case.now (setting_of case.now phase.now) a.new < phase_cost case.now (setting_of case.now phase.now) a.old }
    ensures steady { result ≡ false → (a.new ≡ a.old) × IsSteady case.now (setting_of case.now phase.now) a.old }
{
    let mut changed = false;
    let mut first = 0;
    for server in 0..case.places.len() {
        let now = settle_next(case, phase, sums, tried, a, first, server);
        first = first_after(first, server, now);
        changed = either(changed, now);
    }
    changed
}

/// Makes an assignment that a phase allows steady: each server in turn gets the place of least cost, until no change of one
/// server is cheaper. It stays allowed, at no greater cost.
///
/// # Errors
/// For want of memory; the assignment is then as before.
pub fn settle(
    alloc: Global,
    case: &Case,
    phase: &Phase<'_>,
    a: &mut Assignment,
) -> Result<(), AllocError>
    requires start { IsTrue (start_allowed case.now phase.now) }
    requires fitting { IsTrue (fits case.now a.old) }
    requires allowed { IsTrue (phase_allowed case.now (setting_of case.now phase.now) a.old) }
    ensures steady { OnOk result (IsSteady case.now (setting_of case.now phase.now) a.new) }
    ensures cost { phase_cost case.now (setting_of case.now phase.now) a.new ≤ phase_cost case.now (setting_of case.now phase.now) a.old }
    ensures unchanged { OnErr result (a.new ≡ a.old) }
{
    let mut sums = sums_of(alloc, case, a)?;
    let mut tried = none_tried(alloc, case, phase)?;
    'settling: while settle_each(case, phase, &mut sums, &mut tried, a) {}
    Ok(())
}
