//! The base of the program of a phase.
ghost use Rattle.std.specs.Prelude.{◌≡◌, ◌<◌, ◌≤◌, IsTrue, length, not, if◌then◌else◌};
ghost use Rattle.plan_model.specs.Units.{server_with};
ghost use Rattle.plan_model.specs.Costs.{terms_cost};
ghost use Rattle.program_rows.specs.Programs.{program_base};
ghost use Rattle.program_rows.specs.Settings.{setting_of, start_fits, makes_active as makes_active_of};
ghost use Rattle.program_rows.specs.Bases.{fixed_cost as fixed_cost_of, fixed_moves as fixed_moves_of, idle_terms as idle_terms_of};

use crate::phases::Phase;
use crate::servers::{makes_active, movable, start_place};
use crate::values::up_cost;
use plan_model::{Case, terms};

/// What a server that the phase may not move costs where it starts.
fn fixed_cost(case: &Case, phase: &Phase<'_>, server: u32) -> u32
    requires start { IsTrue (start_fits case.now phase.now) }
    requires in_range { server < length case.now.places }
    ensures cost { result ≡ fixed_cost_of case.now (setting_of case.now phase.now) (server_with case.now (setting_of case.now phase.now).start server) }
    ensures most { result ≤ 10000 }
{
    let place = &case.places.as_slice()[server as usize];
    let to = start_place(case, phase, server);
    if !movable(case, phase, server) && place.up {
        up_cost(case, place.holder, place.busy, to)
    } else {
        0
    }
}

/// What the servers that the phase may not move cost.
fn fixed_moves(case: &Case, phase: &Phase<'_>) -> u64
    requires { IsTrue (start_fits case.now phase.now) }
    ensures cost { result ≡ fixed_moves_of case.now (setting_of case.now phase.now) }
    ensures most { result ≤ 200000000 }
{
    let mut sum = 0u64;
    for server in 0..case.places.len() {
        sum += u64::from(fixed_cost(case, phase, server));
    }
    sum
}

/// The terms of a reservation that is not active, at the phase's start.
fn idle_terms_at(case: &Case, phase: &Phase<'_>, r: u32) -> u64
    requires start { IsTrue (start_fits case.now phase.now) }
    requires in_range { r < length case.now.wants }
    ensures cost { result ≡ (if not (makes_active_of phase.now r) then terms_cost case.now (setting_of case.now phase.now).start r else 0) }
    ensures most { result ≤ 2000000000000 }
{
    if makes_active(phase, r) {
        return 0;
    }
    match phase {
        Phase::Region => 0,
        Phase::Rack { from, .. } => terms(case, from, r),
    }
}

/// The terms of all reservations that are not active.
fn idle_terms(case: &Case, phase: &Phase<'_>) -> u64
    requires { IsTrue (start_fits case.now phase.now) }
    ensures cost { result ≡ idle_terms_of case.now (setting_of case.now phase.now) }
    ensures most { result ≤ 128000000000000 }
{
    let mut sum = 0u64;
    for r in 0..case.wants.len() {
        sum += idle_terms_at(case, phase, r);
    }
    sum
}

/// The moves of the servers that the phase may not move, and the terms of the reservations that are not active.
pub(crate) fn base(case: &Case, phase: &Phase<'_>) -> u64
    requires { IsTrue (start_fits case.now phase.now) }
    ensures { result ≡ program_base case.now (setting_of case.now phase.now) }
{
    fixed_moves(case, phase) + idle_terms(case, phase)
}
