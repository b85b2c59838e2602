//! Which servers a phase may move.
ghost use Rattle.std.specs.Prelude.{◌≡◌, ◌<◌, ◌≤◌, ◌&&◌, All, IsTrue, IfOk, length, nat_lt, slice_index_or, None};
ghost use Rattle.plan_model.specs.Units.{server_with, value_for};
ghost use Rattle.plan_model.specs.Rack.{is_movable, none_or_in, some_value as some_value_of};
ghost use Rattle.program_rows.specs.Settings.{setting_of, start_fits, movable_flags, racks_count, makes_active as makes_active_of, start_place as start_place_of};

use crate::phases::Phase;
use crate::values::value;
use plan_model::Case;
use ras_table::List;
use std::alloc::{AllocError, Global};

/// Whether a reservation that is there is active in the phase.
pub(crate) fn makes_active(phase: &Phase<'_>, r: u32) -> bool
    ensures { result ≡ makes_active_of phase.now r }
{
    match phase {
        Phase::Region => true,
        Phase::Rack { chosen, .. } => chosen.as_slice().contains(&r),
    }
}

/// Whether racks count in the phase.
pub(crate) fn counts_racks(phase: &Phase<'_>) -> bool
    ensures { result ≡ racks_count phase.now }
{
    match phase {
        Phase::Region => false,
        Phase::Rack { .. } => true,
    }
}

/// What the phase's start gives a server.
pub(crate) fn start_place(case: &Case, phase: &Phase<'_>, server: u32) -> Option<u32>
    requires start { IsTrue (start_fits case.now phase.now) }
    requires in_range { server < length case.now.places }
    ensures { result ≡ start_place_of phase.now server }
{
    match phase {
        Phase::Region => None,
        Phase::Rack { from, .. } => from.of.as_slice()[server as usize],
    }
}

/// Whether the server starts with none or an active reservation.
fn starts_active(case: &Case, phase: &Phase<'_>, server: u32) -> bool
    requires start { IsTrue (start_fits case.now phase.now) }
    requires in_range { server < length case.now.places }
    ensures { result ≡ none_or_in (setting_of case.now phase.now).active (slice_index_or (setting_of case.now phase.now).start.of server None) }
{
    match start_place(case, phase, server) {
        None => true,
        Some(r) => makes_active(phase, r),
    }
}

/// Whether reservation r is active and has a value above 0 for a type of server.
fn is_served(case: &Case, phase: &Phase<'_>, r: u32, kind: u32) -> bool
    requires { r < length case.now.wants }
    ensures { result ≡ (makes_active_of phase.now r && nat_lt 0 (value_for case.now r kind)) }
{
    value(case, r, kind) > 0 && makes_active(phase, r)
}

/// Whether some active reservation has a value above 0 for a type of server.
fn some_value(case: &Case, phase: &Phase<'_>, kind: u32) -> bool
    ensures { result ≡ some_value_of case.now (setting_of case.now phase.now).active kind }
{
    for r in 0..case.wants.len() {
        if is_served(case, phase, r, kind) {
            return true;
        }
    }
    false
}

/// Whether the phase may move a server: it is up, it starts with none or an active reservation, and some active
/// reservation has a value above 0 for its type. Takes no memory.
pub fn movable(case: &Case, phase: &Phase<'_>, server: u32) -> bool
    requires start { IsTrue (start_fits case.now phase.now) }
    requires in_range { server < length case.now.places }
    ensures { result ≡ is_movable case.now (setting_of case.now phase.now).active (server_with case.now (setting_of case.now phase.now).start server) }
{
    let place = &case.places.as_slice()[server as usize];
    place.up && starts_active(case, phase, server) && some_value(case, phase, place.kind)
}

/// For each server in order, whether the phase may move it.
///
/// # Errors
/// For want of memory.
pub fn movables(alloc: Global, case: &Case, phase: &Phase<'_>) -> Result<List<bool>, AllocError>
    requires { IsTrue (start_fits case.now phase.now) }
    ensures flags { IfOk result (λ flags. flags ≡ movable_flags case.now (setting_of case.now phase.now)) }
    ensures as_many { IfOk result (λ flags. length flags ≡ length case.now.places) }
{
    let mut flags = Vec::new(alloc);
    for server in 0..case.places.len() {
        flags.push(movable(case, phase, server))?;
    }
    Ok(List::from_vec(flags))
}

/// The active reservations, in file order.
pub(crate) fn active_reservations(
    alloc: Global,
    case: &Case,
    phase: &Phase<'_>,
) -> Result<Vec<u32>, AllocError>
    ensures active { IfOk result (λ active. active.items ≡ (setting_of case.now phase.now).active) }
    ensures there { IfOk result (λ active. All (λ r. r < length case.now.wants) active.items) }
    ensures few { IfOk result (λ active. length active.items ≤ 64) }
{
    let mut active = Vec::new(alloc);
    for r in 0..case.wants.len() {
        if makes_active(phase, r) {
            active.push(r)?;
        }
    }
    Ok(active)
}
