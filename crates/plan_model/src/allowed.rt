ghost use Rattle.std.specs.Prelude.{◌≡◌, ◌<◌, ℕ, IsTrue, length, nat_lt, true, slice_index};
ghost use Rattle.std.specs.Option.{option_map_or};
ghost use Rattle.plan_model.specs.Units.{want_of, server_with, units as units_of, units_where};
ghost use Rattle.plan_model.specs.Losses.{is_lost, named_losses, losses_named as losses_named_of, loss_at as loss_at_of};
ghost use Rattle.plan_model.specs.Allowed.{fits, serves as serves_of, keeps_need as keeps_need_of, first_not_served as first_not_served_of, first_lost as first_lost_of, first_loss as first_loss_of};

use crate::cases::{Assignment, Case, Place};
use crate::costs::want_at;
use crate::levels::Level;
use crate::losses::{Lost, loss_at, losses_named};
use crate::sums::{units, value};
use crate::tables::units_by_number;
use ras_requests::Protection;

/// Whether a place is none, or one of so many reservations.
fn is_there(to: Option<u32>, reservations: u32) -> bool
    ensures { result ≡ option_map_or (λ r. nat_lt r reservations) to true }
{
    match to {
        Some(r) => r < reservations,
        None => true,
    }
}

/// Whether an assignment has one place for each server, and each reservation that it names is in the case.
pub fn fits(case: &Case, a: &Assignment) -> bool
    ensures { result ≡ fits case.now a.now }
{
    let reservations = case.wants.len();
    a.of.len() == case.places.len() && a.of.as_slice().iter().all(|to| is_there(*to, reservations))
}

/// Whether a server may get what it gets.
fn may_get(case: &Case, place: &Place, to: Option<u32>) -> bool
    requires { option_map_or (λ r. nat_lt r (length case.now.wants)) to true ≡ true }
    ensures { result ≡ serves_of case.now (place.now, to) }
{
    match to {
        None => true,
        Some(r) => place.up && value(case, r, place.kind) > 0,
    }
}

/// Whether a server serves: it gets none, or it is up and its reservation has a value above 0 for its type.
pub fn serves(case: &Case, a: &Assignment, server: u32) -> bool
    requires fitting { IsTrue (fits case.now a.now) }
    requires in_range { server < length case.now.places }
    ensures { result ≡ serves_of case.now (server_with case.now a.now server) }
{
    let place = &case.places.as_slice()[server as usize];
    may_get(case, place, a.of.as_slice()[server as usize])
}

/// The first server that does not serve.
pub fn first_not_served(case: &Case, a: &Assignment) -> Option<u32>
    requires { IsTrue (fits case.now a.now) }
    ensures { result ≡ first_not_served_of case.now a.now }
{
    for server in 0..case.places.len() {
        if !serves(case, a, server) {
            return Some(server);
        }
    }
    None
}

/// The units that reservation r loses at each loss that a protection names, by the number of the loss. At most one pass over
/// the servers.
fn units_lost(case: &Case, a: &Assignment, r: u32, protection: Protection) -> [u64; 256]
    requires fitting { IsTrue (fits case.now a.now) }
    requires in_range { r < length case.now.wants }
    ensures { (n : ℕ) → n < losses_named_of case.now protection
        → slice_index result n ≡ units_where (is_lost (loss_at_of protection n)) case.now a.now r }
{
    match protection {
        Protection::Total => [0; 256],
        Protection::Board => units_by_number(case, a, r, Level::Board, 0),
        Protection::Center => units_by_number(case, a, r, Level::Center, 0),
    }
}

/// The first loss that the protection of reservation r names and that it does not survive.
fn first_named(case: &Case, a: &Assignment, r: u32, need: u64, all: u64) -> Option<Lost>
    requires fitting { IsTrue (fits case.now a.now) }
    requires in_range { r < length case.now.wants }
    requires need { need ≡ (want_of case.now r).need }
    requires all { all ≡ units_of case.now a.now r }
    ensures { result ≡ first_lost_of case.now a.now r (named_losses case.now r) }
{
    let protection = want_at(case, r).protection;
    let lost = units_lost(case, a, r, protection);
    for number in 0..losses_named(case, protection) {
        if all.saturating_sub(lost[number as usize]) < need {
            return Some(loss_at(protection, number));
        }
    }
    None
}

/// The first loss after which reservation r does not have what it needs: `Total` where its units are too few without any
/// loss, else the first switchboard or datacenter of those that its protection names. `None` where it keeps its need. At
/// most two passes over the servers.
pub fn first_loss(case: &Case, a: &Assignment, r: u32) -> Option<Lost>
    requires fitting { IsTrue (fits case.now a.now) }
    requires in_range { r < length case.now.wants }
    ensures { result ≡ first_loss_of case.now a.now r }
{
    let need = u64::from(want_at(case, r).need);
    let all = units(case, a, r);
    if all < need {
        return Some(Lost::Total);
    }
    first_named(case, a, r, need, all)
}

/// Whether reservation r has what it needs, also after any one loss that its protection names.
pub fn keeps_need(case: &Case, a: &Assignment, r: u32) -> bool
    requires fitting { IsTrue (fits case.now a.now) }
    requires in_range { r < length case.now.wants }
    ensures { result ≡ keeps_need_of case.now a.now r }
{
    first_loss(case, a, r).is_none()
}
