//! Which servers a round changed, and which classes they left or join.
ghost use Rattle.std.specs.Prelude.{◌≡◌, IfOk, length};
ghost use Rattle.std.specs.List.{list_any};
ghost use Rattle.ras_rounds.specs.Rounds.{differs as differs_of};
ghost use Rattle.ras_rounds.specs.Mends.{changed_flags as changed_flags_of, has_flag as has_flag_of, is_touched as is_touched_of, joiners_of, joins as joins_of};

use crate::places::same_holder;
use plan_model::Place;
use std::alloc::{AllocError, Global};
use symmetry_classes::Class;

/// What a round changed.
#[derive(Drop)]
pub(crate) struct Changes {
    /// For each server whether it changed.
    pub flags: Vec<bool>,
    /// The servers that changed, as they are after the round.
    pub joiners: Vec<Place>,
}

// Whether a server has another holder, busy flag or up flag.
fn differs(one: &Place, other: &Place) -> bool
    ensures { result ≡ differs_of one.now other.now }
{
    !(same_holder(one.holder, other.holder) && one.busy == other.busy && one.up == other.up)
}

// For each server whether it differs.
fn changed_flags(alloc: Global, places: &[Place], others: &[Place]) -> Result<Vec<bool>, AllocError>
    requires { length others.now ≡ length places.now }
    ensures { IfOk result (λ flags. flags.items ≡ changed_flags_of places.now others.now) }
{
    let mut flags = Vec::new(alloc);
    for i in 0..places.len() {
        flags.push(differs(&places[i], &others[i]))?;
    }
    Ok(flags)
}

// The servers that differ, as they are after.
fn joiners(alloc: Global, places: &[Place], others: &[Place]) -> Result<Vec<Place>, AllocError>
    requires { length others.now ≡ length places.now }
    ensures { IfOk result (λ joiners. joiners.items ≡ joiners_of places.now others.now) }
{
    let mut joiners = Vec::new(alloc);
    for i in 0..places.len() {
        if differs(&places[i], &others[i]) {
            joiners.push(others[i])?;
        }
    }
    Ok(joiners)
}

/// What is changed from some servers to others.
pub(crate) fn changes_between(
    alloc: Global,
    places: &[Place],
    others: &[Place],
) -> Result<Changes, AllocError>
    requires { length others.now ≡ length places.now }
    ensures flags { IfOk result (λ changes. changes.flags.items ≡ changed_flags_of places.now others.now) }
    ensures joiners { IfOk result (λ changes. changes.joiners.items ≡ joiners_of places.now others.now) }
{
    Ok(Changes {
        flags: changed_flags(alloc, places, others)?,
        joiners: joiners(alloc, places, others)?,
    })
}

// Whether the flag of a server is set.
fn has_flag(flags: &[bool], server: u32) -> bool
    ensures { result ≡ has_flag_of flags.now server }
{
    match flags.get(server as usize) {
        Some(flag) => *flag,
        None => false,
    }
}

// Whether one of some servers changed.
fn some_flag(flags: &[bool], members: &[u32]) -> bool
    ensures { result ≡ list_any (has_flag_of flags.now) members.now }
{
    for i in 0..members.len() {
        if has_flag(flags, members[i]) {
            return true;
        }
    }
    false
}

// Whether a server stands as those of a class do.
fn joins(class: &Class, place: &Place) -> bool
    ensures { result ≡ joins_of class.now place.now }
{
    class.kind == place.kind
        && class.board == place.board
        && same_holder(class.holder, place.holder)
        && class.busy == place.busy
}

// Whether one of some servers stands as those of a class do.
fn some_joins(class: &Class, joiners: &[Place]) -> bool
    ensures { result ≡ list_any (joins_of class.now) joiners.now }
{
    for i in 0..joiners.len() {
        if joins(class, &joiners[i]) {
            return true;
        }
    }
    false
}

/// Whether a changed server left a class, or joins it. Time linear in the members and the changed servers.
pub(crate) fn is_touched(changes: &Changes, class: &Class) -> bool
    ensures { result ≡ is_touched_of changes.now.flags.items changes.now.joiners.items class.now }
{
    some_flag(changes.flags.as_slice(), class.members.as_slice())
        || some_joins(class, changes.joiners.as_slice())
}
