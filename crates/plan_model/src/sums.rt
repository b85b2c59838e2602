ghost use Rattle.std.specs.Prelude.{◌≡◌, ◌<◌, ◌≤◌, ◌==◌, IsTrue, length, if◌then◌else◌};
ghost use Rattle.plan_model.specs.Units.{value_for, share_of};
ghost use Rattle.plan_model.specs.Units.{units as units_of, units_on_board as board_units_of, units_on_rack as rack_units_of, units_in_center as center_units_of};
ghost use Rattle.plan_model.specs.Allowed.{fits};
ghost use Rattle.plan_model.specs.Levels.{number_at, units_at};

use crate::cases::{Assignment, Case, Place};
use crate::levels::{Level, number_at};

/// The value of reservation r for a type.
pub(crate) fn value(case: &Case, r: u32, kind: u32) -> u32
    requires { r < length case.now.wants }
    ensures value { result ≡ value_for case.now r kind }
    ensures most { result ≤ 1000 }
{
    let wants = case.wants.as_slice();
    let want = &wants[r as usize];
    let values = want.values.as_slice();
    values.get(kind as usize).copied().unwrap_or(0)
}

/// What a server gives reservation r.
pub(crate) fn share(case: &Case, r: u32, place: &Place, to: Option<u32>) -> u32
    requires { r < length case.now.wants }
    ensures value { result ≡ share_of case.now r (place.now, to) }
    ensures most { result ≤ 1000 }
{
    match to {
        Some(q) if q == r => value(case, r, place.kind),
        _ => 0,
    }
}

/// What a server gives reservation r from one part.
fn share_in(case: &Case, r: u32, place: &Place, to: Option<u32>, level: Level, number: u32) -> u32
    requires { r < length case.now.wants }
    ensures value { result ≡ (if number_at level place.now == number then share_of case.now r (place.now, to) else 0) }
    ensures most { result ≤ 1000 }
{
    if number_at(level, place) == number {
        share(case, r, place, to)
    } else {
        0
    }
}

/// The units that reservation r has: the sum of its values over the servers that it gets.
pub fn units(case: &Case, a: &Assignment, r: u32) -> u64
    requires fitting { IsTrue (fits case.now a.now) }
    requires in_range { r < length case.now.wants }
    ensures units { result ≡ units_of case.now a.now r }
    ensures most { result ≤ 20000000 }
{
    let places = case.places.as_slice();
    let of = a.of.as_slice();
    let mut sum = 0u64;
    for (i, place) in places.iter().enumerate() {
        sum += u64::from(share(case, r, place, of[i]));
    }
    sum
}

/// The units that reservation r has in the part of that number.
pub(crate) fn units_in(case: &Case, a: &Assignment, r: u32, level: Level, number: u32) -> u64
    requires fitting { IsTrue (fits case.now a.now) }
    requires in_range { r < length case.now.wants }
    ensures units { result ≡ units_at level case.now a.now r number }
    ensures within { result ≤ units_of case.now a.now r }
    ensures most { result ≤ 20000000 }
{
    let places = case.places.as_slice();
    let of = a.of.as_slice();
    let mut sum = 0u64;
    for (i, place) in places.iter().enumerate() {
        sum += u64::from(share_in(case, r, place, of[i], level, number));
    }
    sum
}

/// The units that reservation r has on one switchboard.
pub fn units_on_board(case: &Case, a: &Assignment, r: u32, board: u32) -> u64
    requires fitting { IsTrue (fits case.now a.now) }
    requires in_range { r < length case.now.wants }
    requires board { board < case.now.boards }
    ensures units { result ≡ board_units_of case.now a.now r board }
    ensures within { result ≤ units_of case.now a.now r }
    ensures most { result ≤ 20000000 }
{
    units_in(case, a, r, Level::Board, board)
}

/// The units that reservation r has on one rack.
pub fn units_on_rack(case: &Case, a: &Assignment, r: u32, rack: u32) -> u64
    requires fitting { IsTrue (fits case.now a.now) }
    requires in_range { r < length case.now.wants }
    requires rack { rack < case.now.racks }
    ensures units { result ≡ rack_units_of case.now a.now r rack }
    ensures within { result ≤ units_of case.now a.now r }
    ensures most { result ≤ 20000000 }
{
    units_in(case, a, r, Level::Rack, rack)
}

/// The units that reservation r has in one datacenter.
pub fn units_in_center(case: &Case, a: &Assignment, r: u32, center: u32) -> u64
    requires fitting { IsTrue (fits case.now a.now) }
    requires in_range { r < length case.now.wants }
    requires center { center < case.now.centers }
    ensures units { result ≡ center_units_of case.now a.now r center }
    ensures within { result ≤ units_of case.now a.now r }
    ensures most { result ≤ 20000000 }
{
    units_in(case, a, r, Level::Center, center)
}
