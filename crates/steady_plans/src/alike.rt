//! Servers that are alike.
ghost use Rattle.std.specs.Prelude.{◌≡◌, ◌<◌, ◌↔◌, IsTrue, None, length, slice_index_or, true};
ghost use Rattle.program_rows.specs.Settings.{setting_of, start_fits};
ghost use Rattle.steady_plans.specs.Steady.{AreAlike};

use crate::values::{place_at, place_in};
use plan_model::{Assignment, Case, Holder, Place};
use program_rows::Phase;

/// Whether two places are the same.
pub(crate) fn is_same(first: Option<u32>, second: Option<u32>) -> bool
    ensures { IsTrue result ↔ (first ≡ second) }
{
    match (first, second) {
        (None, None) => true,
        (Some(q), Some(r)) => q == r,
        (None, Some(_)) => false,
        (Some(_), None) => false,
    }
}

/// Whether two holders are the same.
fn is_same_holder(first: Holder, second: Holder) -> bool
    ensures { IsTrue result ↔ (first ≡ second) }
{
    match (first, second) {
        (Holder::Free, Holder::Free) => true,
        (Holder::Gone, Holder::Gone) => true,
        (Holder::Held(q), Holder::Held(r)) => q == r,
        _ => false,
    }
}

/// Whether two servers stand alike.
fn stand_alike(first: Place, second: Place) -> bool
    ensures { result ≡ true → first ≡ second }
{
    if first.kind != second.kind {
        return false;
    }
    if first.rack != second.rack {
        return false;
    }
    if first.board != second.board {
        return false;
    }
    if first.center != second.center {
        return false;
    }
    if first.busy != second.busy {
        return false;
    }
    if first.up != second.up {
        return false;
    }
    is_same_holder(first.holder, second.holder)
}

/// What a server starts with.
pub(crate) fn start_of(case: &Case, phase: &Phase<'_>, server: u32) -> Option<u32>
    requires start { IsTrue (start_fits case.now phase.now) }
    requires in_range { server < length case.now.places }
    ensures { result ≡ slice_index_or (setting_of case.now phase.now).start.of server None }
{
    match phase {
        Phase::Region => None,
        Phase::Rack { from, .. } => place_in(from, server),
    }
}

/// Whether two servers stand alike, and start with and get the same.
pub(crate) fn are_alike(
    case: &Case,
    phase: &Phase<'_>,
    a: &Assignment,
    first: u32,
    second: u32,
) -> bool
    requires start { IsTrue (start_fits case.now phase.now) }
    requires size { length a.now.of ≡ length case.now.places }
    requires one { first < length case.now.places }
    requires two { second < length case.now.places }
    ensures { result ≡ true → AreAlike case.now (setting_of case.now phase.now) a.now first second }
{
    let one = place_at(case, first);
    let two = place_at(case, second);
    if !stand_alike(one, two) {
        return false;
    }
    let first_start = start_of(case, phase, first);
    let second_start = start_of(case, phase, second);
    if !is_same(first_start, second_start) {
        return false;
    }
    let first_place = place_in(a, first);
    let second_place = place_in(a, second);
    is_same(first_place, second_place)
}
