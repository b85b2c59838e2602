//! What one reservation costs, and whether it keeps its need, by the sums.
ghost use Rattle.std.specs.Prelude.{◌≡◌, ◌+◌, ◌-◌, ◌*◌, ◌<◌, ◌≤◌, ◌&&◌, IsTrue, if◌then◌else◌, length, sum_by, ℕ};
ghost use Rattle.std.specs.List.{list_all};
ghost use Rattle.plan_model.specs.declared.cases.Assignment.{Assignment as AnyAssignment};
ghost use Rattle.plan_model.specs.Allowed.{keeps_need as keeps_need_of, survives as survives_of};
ghost use Rattle.plan_model.specs.CaseRule.{goal_in_range};
ghost use Rattle.plan_model.specs.Costs.{excess as excess_of, greatest, terms_cost};
ghost use Rattle.plan_model.specs.Losses.{is_lost, loss_at, losses_named as losses_named_of};
ghost use Rattle.plan_model.specs.Units.{units_on_rack, units_where, want_of};
ghost use Rattle.program_rows.specs.Phases.{is_active as is_active_of};
ghost use Rattle.program_rows.specs.Settings.{makes_active as makes_active_of, setting_of};
ghost use Rattle.steady_plans.specs.Local.{local_cost as local_cost_of};
ghost use Rattle.steady_plans.specs.Tables.{AreSums, AreSumsOf, cell, column, shortage_by};

use crate::sums::{Sums, units};
use crate::values::want_at;
use plan_model::{Case, Goal, losses_named};
use program_rows::Phase;
use ras_requests::Protection;

/// Whether the phase makes a reservation that is there active.
fn makes_active(phase: &Phase<'_>, r: u32) -> bool
    ensures { result ≡ makes_active_of phase.now r }
{
    match phase {
        Phase::Region => true,
        Phase::Rack { chosen, .. } => chosen.as_slice().contains(&r),
    }
}

/// Whether a reservation is active in the phase.
pub(crate) fn is_active(case: &Case, phase: &Phase<'_>, r: u32) -> bool
    requires { r < length case.now.wants }
    ensures { result ≡ is_active_of (setting_of case.now phase.now) r }
{
    makes_active(phase, r)
}

/// Whether the racks of a reservation count in the phase.
fn counts_racks(case: &Case, phase: &Phase<'_>, r: u32) -> bool
    requires { r < length case.now.wants }
    ensures { result ≡ ((setting_of case.now phase.now).racks && is_active_of (setting_of case.now phase.now) r) }
{
    match phase {
        Phase::Region => false,
        Phase::Rack { .. } => is_active(case, phase, r),
    }
}

/// The most units of reservation r in one part.
fn largest(cells: &[u64], parts: u32, r: u32) -> u64
    requires small { r < 64 }
    requires within { parts * 64 ≤ length cells.now }
    requires units { (n : ℕ) → n < parts → cell cells.now n r ≤ 20000000 }
    ensures largest { result ≡ greatest (column cells.now r parts) }
    ensures most { result ≤ 20000000 }
{
    let mut largest = 0u64;
    for part in 0..parts {
        let here = units(cells, part, r);
        largest = largest.max(here);
    }
    largest
}

/// The units of reservation r above a limit in the parts.
fn excess(cells: &[u64], parts: u32, r: u32, limit: u32) -> u64
    requires small { r < 64 }
    requires few { parts ≤ 64 }
    requires within { parts * 64 ≤ length cells.now }
    requires units { (n : ℕ) → n < parts → cell cells.now n r ≤ 20000000 }
    ensures excess { result ≡ excess_of limit (column cells.now r parts) }
    ensures most { result ≤ 1280000000 }
{
    let mut over = 0u64;
    for part in 0..parts {
        let here = units(cells, part, r);
        let above = here.saturating_sub(u64::from(limit));
        over += above;
    }
    over
}

/// What the shortage at one near entry costs.
fn shortage(case: &Case, cells: &[u64], r: u32, goal: &Goal) -> u64
    requires small { r < 64 }
    requires within { case.now.centers * 64 ≤ length cells.now }
    requires goal { IsTrue (goal_in_range case.now.centers goal.now) }
    ensures cost { result ≡ shortage_by cells.now r goal.now }
    ensures most { result ≤ 100000000000 }
{
    let there = match goal.center {
        Some(center) => units(cells, center, r),
        None => 0,
    };
    u64::from(goal.weight) * u64::from(goal.least).saturating_sub(there)
}

/// What the shortages at all near entries of a reservation cost.
fn shortages(case: &Case, cells: &[u64], r: u32) -> u64
    requires there { r < length case.now.wants }
    requires within { case.now.centers * 64 ≤ length cells.now }
    ensures cost { result ≡ sum_by (shortage_by cells.now r) (want_of case.now r).near }
    ensures most { result ≤ 1600000000000 }
{
    let want = want_at(case, r);
    let mut sum = 0u64;
    for goal in want.near.as_slice() {
        sum += shortage(case, cells, r, goal);
    }
    sum
}

/// The terms of a reservation.
fn terms(case: &Case, sums: &Sums, r: u32) -> u64
    requires there { r < length case.now.wants }
    requires sums { AreSums case.now sums.now }
    ensures cost { (a : AnyAssignment) → AreSumsOf case.now a sums.now → result ≡ terms_cost case.now a r }
    ensures most { result ≤ 15000000000000 }
{
    let want = want_at(case, r);
    let boards = sums.boards.as_slice();
    let centers = sums.centers.as_slice();
    let most = largest(boards, case.boards, r);
    let over = excess(boards, case.boards, r, want.spread_limit);
    let short = shortages(case, centers, r);
    let buffer = u64::from(want.buffer_weight);
    let spread = u64::from(want.spread_weight);
    buffer * most + spread * over + short
}

/// What the units of a reservation above its limit on one rack cost, where its racks count.
fn rack_part(case: &Case, phase: &Phase<'_>, sums: &Sums, r: u32, rack: u32) -> u64
    requires there { r < length case.now.wants }
    requires rack { rack < case.now.racks }
    requires sums { AreSums case.now sums.now }
    ensures cost { (a : AnyAssignment) → AreSumsOf case.now a sums.now
        → result ≡ (if (setting_of case.now phase.now).racks && is_active_of (setting_of case.now phase.now) r then (want_of case.now r).rack_weight * (units_on_rack case.now a r rack - (want_of case.now r).rack_limit) else 0) }
    ensures most { result ≤ 200000000000 }
{
    if !counts_racks(case, phase, r) {
        return 0;
    }
    let want = want_at(case, r);
    let racks = sums.racks.as_slice();
    let here = units(racks, rack, r);
    let limit = u64::from(want.rack_limit);
    let above = here.saturating_sub(limit);
    let weight = u64::from(want.rack_weight);
    weight * above
}

/// The terms of a reservation, and its excess on one rack where racks count.
pub(crate) fn local_cost(case: &Case, phase: &Phase<'_>, sums: &Sums, r: u32, rack: u32) -> u64
    requires there { r < length case.now.wants }
    requires rack { rack < case.now.racks }
    requires sums { AreSums case.now sums.now }
    ensures cost { (a : AnyAssignment) → AreSumsOf case.now a sums.now → result ≡ local_cost_of case.now (setting_of case.now phase.now) a r rack }
    ensures most { result ≤ 15200000000000 }
{
    terms(case, sums, r) + rack_part(case, phase, sums, r, rack)
}

/// The units of reservation r that are lost at the loss of that number, of those that a protection names.
fn units_lost(case: &Case, sums: &Sums, r: u32, protection: Protection, number: u32) -> u64
    requires there { r < length case.now.wants }
    requires named { number < losses_named_of case.now protection }
    requires sums { AreSums case.now sums.now }
    ensures { (a : AnyAssignment) → AreSumsOf case.now a sums.now → result ≡ units_where (is_lost (loss_at protection number)) case.now a r }
{
    match protection {
        Protection::Total => 0,
        Protection::Board => units(sums.boards.as_slice(), number, r),
        Protection::Center => units(sums.centers.as_slice(), number, r),
    }
}

/// Whether a reservation has what it needs after the loss of that number, of those that its protection names.
fn survives(case: &Case, sums: &Sums, r: u32, number: u32) -> bool
    requires there { r < length case.now.wants }
    requires named { number < losses_named_of case.now (want_of case.now r).protection }
    requires sums { AreSums case.now sums.now }
    ensures { (a : AnyAssignment) → AreSumsOf case.now a sums.now → result ≡ survives_of case.now a r (loss_at (want_of case.now r).protection number) }
{
    let want = want_at(case, r);
    let whole = sums.all.as_slice();
    let all = units(whole, 0, r);
    let lost = units_lost(case, sums, r, want.protection, number);
    u64::from(want.need) <= all.saturating_sub(lost)
}

/// Whether a reservation keeps its need.
pub(crate) fn keeps_need(case: &Case, sums: &Sums, r: u32) -> bool
    requires there { r < length case.now.wants }
    requires sums { AreSums case.now sums.now }
    ensures { (a : AnyAssignment) → AreSumsOf case.now a sums.now → result ≡ keeps_need_of case.now a r }
{
    let want = want_at(case, r);
    let whole = sums.all.as_slice();
    if units(whole, 0, r) < u64::from(want.need) {
        return false;
    }
    for number in 0..losses_named(case, want.protection) {
        if !survives(case, sums, r, number) {
            return false;
        }
    }
    true
}
