//! The mend of a class table: the classes that a round left alone stay, and the other servers are grouped by themselves.
ghost use Rattle.std.specs.Prelude.{◌≡◌, ◌≤◌, ◌+◌, ◌++◌, IfOk, if◌then◌else◌, length, slice_set, false, vec_len, vec_capacity};
ghost use Rattle.std.specs.List.Sorted.{IsPermutation, IsNonDecreasingBy};
ghost use Rattle.program_rows.specs.Settings.{movable_flags, region_setting};
ghost use Rattle.ras_rounds.specs.Mends.{clear as clear_of, cleared, first_member as first_member_of, is_touched as is_touched_of, kept_classes};

use crate::changes::{Changes, is_touched};
use plan_model::Case;
use program_rows::{Phase, movables};
use ras_table::List;
use std::alloc::{AllocError, Global};
use symmetry_classes::Class;

// Clears the flag of a server, where there is one.
fn clear_one(flags: &mut Vec<bool>, server: u32)
    ensures { flags.new.items ≡ slice_set flags.old.items server false }
{
    if (server as usize) < flags.len() {
        flags[server as usize] = false;
    }
}

// Clears the flags of some servers.
fn clear(flags: &mut Vec<bool>, members: &[u32])
    ensures { flags.new.items ≡ clear_of members.now flags.old.items }
{
    for i in 0..members.len() {
        clear_one(flags, members[i]);
    }
}

/// For each server after a round whether it is movable and in no class that the round left alone.
pub(crate) fn loose_flags(
    alloc: Global,
    changes: &Changes,
    classes: &[Class],
    after: &Case,
) -> Result<List<bool>, AllocError>
    ensures flags { IfOk result (λ flags. flags ≡ cleared (is_touched_of changes.now.flags.items changes.now.joiners.items) classes.now (movable_flags after.now (region_setting after.now))) }
    ensures as_many { IfOk result (λ flags. length flags ≡ length after.now.places) }
{
    let mut flags = movables(alloc, after, &Phase::Region)?.into_vec();
    for i in 0..classes.len() {
        if !is_touched(changes, &classes[i]) {
            clear(&mut flags, classes[i].members.as_slice());
        }
    }
    Ok(List::from_vec(flags))
}

// The first server of a class.
fn first_member(class: &Class) -> u32
    ensures { result ≡ first_member_of class.now }
{
    match class.members.get(0) {
        Some(server) => *server,
        None => 0,
    }
}

/// Leaves the classes that the round left alone, and puts the fresh ones among them in the order of their first members. There
/// is room for these, so no memory is wanted.
pub(crate) fn settle(classes: &mut Vec<Class>, mut fresh: Vec<Class>, changes: &Changes)
    requires room { vec_len classes.old + vec_len fresh ≤ vec_capacity classes.old }
    ensures moved { IsPermutation (kept_classes (is_touched_of changes.now.flags.items changes.now.joiners.items) classes.old.items ++ fresh.items) classes.new.items }
    ensures sorted { IsNonDecreasingBy first_member_of classes.new.items }
{
    classes.retain(|class| !is_touched(changes, class));
    if classes.append(&mut fresh).is_ok() {
        classes.sort_unstable_by_key(|class| first_member(class));
    }
}
