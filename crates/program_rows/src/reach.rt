//! What an active reservation finds among the movable servers.
ghost use Rattle.std.specs.Prelude.{◌≡◌, ◌<◌, ◌≤◌, ◌^◌, IfOk, IsTrue, All, length, map, sum_by, filter};
ghost use Rattle.std.specs.List.{range_with_len};
ghost use Rattle.plan_model.specs.Units.{place_of, value_for};
ghost use Rattle.symmetry_classes.specs.Groups.{flagged_servers};
ghost use Rattle.program_rows.specs.Reach.{number_at as number_of, numbers_at as numbers_of, reaches_at, losses_among, reach_among as reach_of, reach_of as reach_in, ReachFits};
ghost use Rattle.program_rows.specs.Settings.{setting_of, start_fits};

use crate::phases::Phase;
use crate::servers::{counts_racks, movables};
use crate::values::{value, want_at};
use plan_model::{Case, Place};
use ras_requests::Protection;
use ras_table::List;
use std::alloc::{AllocError, Global};

/// What servers share: a switchboard, a rack, or a datacenter.
#[derive(Clone, Copy)]
pub enum Level {
    Board,
    Rack,
    Center,
}

/// The movable servers that have a value above 0 for a reservation: their value, the switchboards and racks on which they
/// stand, and the losses that touch them of those that the reservation's protection names, each by rising number. Racks
/// are there only where they cost.
#[derive(Debug, Drop)]
pub struct Reach {
    pub reservation: u32,
    pub value: u32,
    pub boards: List<u32>,
    pub losses: List<u32>,
    pub racks: List<u32>,
}

/// The number of a server's switchboard, rack or datacenter.
fn number_at(level: Level, place: &Place) -> u32
    ensures { result ≡ number_of level place.now }
{
    match level {
        Level::Board => place.board,
        Level::Rack => place.rack,
        Level::Center => place.center,
    }
}

/// How many switchboards, racks or datacenters there are.
fn numbers_at(level: Level, case: &Case) -> u32
    ensures { result ≡ numbers_of level case.now }
{
    match level {
        Level::Board => case.boards,
        Level::Rack => case.racks,
        Level::Center => case.centers,
    }
}

/// The numbers that are flagged, by rising number.
pub(crate) fn flagged_numbers(alloc: Global, flags: &[bool]) -> Result<List<u32>, AllocError>
    requires { length flags.now < 2 ^ 32 }
    ensures { IfOk result (λ numbers. numbers ≡ flagged_servers flags.now) }
{
    let mut numbers = Vec::new(alloc);
    for (number, flag) in flags.iter().enumerate() {
        if *flag {
            numbers.push(number as u32)?;
        }
    }
    Ok(List::from_vec(numbers))
}

/// For each switchboard, rack or datacenter, whether one of the servers stands there and has a value above 0 for reservation r.
fn flags_at(
    alloc: Global,
    case: &Case,
    servers: &[u32],
    r: u32,
    level: Level,
) -> Result<Vec<bool>, AllocError>
    requires there { r < length case.now.wants }
    requires servers { All (λ s. s < length case.now.places) servers.now }
    ensures flags { IfOk result (λ flags. flags.items ≡ map (reaches_at case.now servers.now r level) (range_with_len 0 (numbers_of level case.now))) }
    ensures few { IfOk result (λ flags. length flags.items < 2 ^ 32) }
{
    let places = case.places.as_slice();
    let mut flags = vec![in alloc; false; numbers_at(level, case) as usize]?;
    for server in servers {
        let place = &places[*server as usize];
        if value(case, r, place.kind) > 0 {
            flags[number_at(level, place) as usize] = true;
        }
    }
    Ok(flags)
}

/// The switchboards, racks or datacenters in which one of the servers has a value above 0 for reservation r.
fn reached(
    alloc: Global,
    case: &Case,
    servers: &[u32],
    r: u32,
    level: Level,
) -> Result<List<u32>, AllocError>
    requires there { r < length case.now.wants }
    requires servers { All (λ s. s < length case.now.places) servers.now }
    ensures { IfOk result (λ numbers. numbers ≡ filter (reaches_at case.now servers.now r level) (range_with_len 0 (numbers_of level case.now))) }
{
    let flags = flags_at(alloc, case, servers, r, level)?;
    flagged_numbers(alloc, flags.as_slice())
}

/// The value of the servers for reservation r.
fn value_of(case: &Case, servers: &[u32], r: u32) -> u32
    requires there { r < length case.now.wants }
    requires servers { All (λ s. s < length case.now.places) servers.now }
    requires few { length servers.now ≤ 20000 }
    ensures value { result ≡ sum_by (λ s. value_for case.now r (place_of case.now s).kind) servers.now }
{
    let places = case.places.as_slice();
    let mut sum = 0u32;
    for server in servers {
        sum += value(case, r, places[*server as usize].kind);
    }
    sum
}

/// The losses that a protection names and that touch one of the servers, by number.
fn reached_losses(
    alloc: Global,
    case: &Case,
    servers: &[u32],
    r: u32,
    protection: Protection,
) -> Result<List<u32>, AllocError>
    requires there { r < length case.now.wants }
    requires servers { All (λ s. s < length case.now.places) servers.now }
    ensures { IfOk result (λ numbers. numbers ≡ losses_among case.now servers.now r protection) }
{
    match protection {
        Protection::Total => List::new(alloc, 0),
        Protection::Board => reached(alloc, case, servers, r, Level::Board),
        Protection::Center => reached(alloc, case, servers, r, Level::Center),
    }
}

/// What reservation r finds among the servers.
pub(crate) fn reach_among(
    alloc: Global,
    case: &Case,
    servers: &[u32],
    racks: bool,
    r: u32,
) -> Result<Reach, AllocError>
    requires there { r < length case.now.wants }
    requires servers { All (λ s. s < length case.now.places) servers.now }
    requires few { length servers.now ≤ 20000 }
    ensures { IfOk result (λ reach. reach ≡ reach_of case.now servers.now racks r) }
{
    Ok(Reach {
        reservation: r,
        value: value_of(case, servers, r),
        boards: reached(alloc, case, servers, r, Level::Board)?,
        losses: reached_losses(alloc, case, servers, r, want_at(case, r).protection)?,
        racks: reached_racks(alloc, case, servers, racks, r)?,
    })
}

/// The racks whose excess costs.
fn reached_racks(
    alloc: Global,
    case: &Case,
    servers: &[u32],
    racks: bool,
    r: u32,
) -> Result<List<u32>, AllocError>
    requires there { r < length case.now.wants }
    requires servers { All (λ s. s < length case.now.places) servers.now }
    ensures { IfOk result (λ numbers. numbers ≡ (reach_of case.now servers.now racks r).racks) }
{
    if racks && want_at(case, r).rack_weight > 0 {
        reached(alloc, case, servers, r, Level::Rack)
    } else {
        List::new(alloc, 0)
    }
}

/// What each active reservation finds among the servers.
fn reaches_among(
    alloc: Global,
    case: &Case,
    servers: &[u32],
    racks: bool,
    active: &[u32],
) -> Result<Vec<Reach>, AllocError>
    requires there { All (λ r. r < length case.now.wants) active.now }
    requires servers { All (λ s. s < length case.now.places) servers.now }
    requires few { length servers.now ≤ 20000 }
    ensures { IfOk result (λ reaches. reaches.items ≡ map (reach_of case.now servers.now racks) active.now) }
{
    let mut reaches = Vec::new(alloc);
    for r in active {
        reaches.push(reach_among(alloc, case, servers, racks, *r)?)?;
    }
    Ok(reaches)
}

/// What each active reservation of the phase finds among the servers that the phase may move.
pub(crate) fn reaches(
    alloc: Global,
    case: &Case,
    phase: &Phase<'_>,
    active: &[u32],
) -> Result<Vec<Reach>, AllocError>
    requires start { IsTrue (start_fits case.now phase.now) }
    requires active { active.now ≡ (setting_of case.now phase.now).active }
    ensures reaches { IfOk result (λ reaches. reaches.items ≡ map (reach_in case.now (setting_of case.now phase.now)) active.now) }
    ensures fits { IfOk result (λ reaches. All (ReachFits case.now) reaches.items) }
    ensures few { IfOk result (λ reaches. length reaches.items ≤ 64) }
{
    let flags = movables(alloc, case, phase)?;
    let servers = flagged_numbers(alloc, flags.as_slice())?;
    let racks = counts_racks(phase);
    let reaches = reaches_among(alloc, case, servers.as_slice(), racks, active)?;
    Ok(reaches)
}
