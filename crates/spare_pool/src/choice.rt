ghost use Rattle.std.specs.Prelude.{◌≡◌, ◌<◌, length, IfSome};
ghost use Rattle.plan_model.specs.Units.{value_for, place_of};
ghost use Rattle.spare_pool.specs.Choices.{precedes as precedes_of, less_of, more_of, lesser as lesser_of, larger as larger_of};

use crate::reads::{value, value_of_kind};
use plan_model::Case;

// Whether a value is less than another one, or the same and its server stands before the other one's.
fn precedes(value: u32, server: u32, other: u32, than: u32) -> bool
    ensures { result ≡ precedes_of value server other than }
{
    value < other || (value == other && server < than)
}

// The one of less value of a server of this value and the best so far, if any; the first where the values are the same.
fn less_of(case: &Case, r: u32, units: u32, first: u32, best: Option<u32>) -> Option<u32>
    requires in_range { r < length case.now.wants }
    requires there { IfSome best (λ s. s < length case.now.places) }
    ensures { result ≡ less_of case.now r units first best }
{
    match best {
        None => Some(first),
        Some(s) => {
            if precedes(units, first, value(case, r, s), s) {
                Some(first)
            } else {
                Some(s)
            }
        }
    }
}

// The one of more value of a server of this value and the best so far, if any; the first where the values are the same.
fn more_of(case: &Case, r: u32, units: u32, first: u32, best: Option<u32>) -> Option<u32>
    requires in_range { r < length case.now.wants }
    requires there { IfSome best (λ s. s < length case.now.places) }
    ensures { result ≡ more_of case.now r units first best }
{
    match best {
        None => Some(first),
        Some(s) => {
            if precedes(value(case, r, s), first, units, s) {
                Some(first)
            } else {
                Some(s)
            }
        }
    }
}

/// The better of the best spare so far and the first one of a type, where so much is asked of it.
pub(crate) fn lesser(
    case: &Case,
    r: u32,
    least: u32,
    kind: u32,
    best: Option<u32>,
    first: Option<u32>,
) -> Option<u32>
    requires in_range { r < length case.now.wants }
    requires there { IfSome best (λ s. s < length case.now.places) }
    ensures { result ≡ lesser_of case.now r least kind best first }
{
    match first {
        None => best,
        Some(server) => {
            let units = value_of_kind(case, r, kind);
            if units < least {
                best
            } else {
                less_of(case, r, units, server, best)
            }
        }
    }
}

/// The better of the best spare so far and the first one of a type, where as much as there is asked of it.
pub(crate) fn larger(
    case: &Case,
    r: u32,
    kind: u32,
    best: Option<u32>,
    first: Option<u32>,
) -> Option<u32>
    requires in_range { r < length case.now.wants }
    requires there { IfSome best (λ s. s < length case.now.places) }
    ensures { result ≡ larger_of case.now r kind best first }
{
    match first {
        None => best,
        Some(server) => {
            let units = value_of_kind(case, r, kind);
            if units < 1 {
                best
            } else {
                more_of(case, r, units, server, best)
            }
        }
    }
}
