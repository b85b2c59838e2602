ghost use Rattle.std.specs.Prelude.{◌≡◌, ◌<◌, ◌++◌, ◌∷◌, ◌^◌, ◌-◌, [], ℕ, IfOk, OnOk, IfSome, Some, None, if◌then◌else◌, length, take, ◌+◌, slice_get, slice_set, vec_len};
ghost use Rattle.std.specs.Option.{ForSome};
ghost use Rattle.symmetry_classes.specs.Groups.{classes_of, flagged_servers};
ghost use Rattle.symmetry_classes.specs.Keys.{IsFound};

use crate::groups::{Class, Classes};
use crate::keys::{Key, key_of};
use indexmap::IndexSet;
use plan_model::{Case, Grouping, Place};
use ras_table::List;
use std::alloc::{AllocError, Global};

/// The class of one server.
fn class_of_one(alloc: Global, racks: bool, server: u32, place: &Place) -> Result<Class, AllocError>
    ensures { IfOk result (λ class. class ≡ record {
      kind = place.now.kind;
      rack = if racks then Some place.now.rack else None;
      board = place.now.board;
      holder = place.now.holder;
      busy = place.now.busy;
      members = server ∷ [];
    }) }
{
    let mut members = List::new(alloc, 1)?;
    if members.push(server).is_err() {
        return Err(AllocError);
    }
    Ok(Class {
        kind: place.kind,
        rack: racks.then_some(place.rack),
        board: place.board,
        holder: place.holder,
        busy: place.busy,
        members,
    })
}

/// Adds a server to a class.
fn add_member(classes: &mut Vec<Class>, at: usize, server: u32) -> Result<(), AllocError>
    requires within { at < vec_len classes.old }
    requires short { ForSome (slice_get classes.old.items at) (λ class. length class.members < 2 ^ 32 - 1) }
    ensures { OnOk result (IfSome (slice_get classes.old.items at)
        (λ class. classes.new.items ≡ slice_set classes.old.items at (record class { members = class.members ++ server ∷ [] }))) }
{
    let class = &mut classes[at];
    if class.members.push(server).is_err() {
        return Err(AllocError);
    }
    Ok(())
}

/// The classes that are found so far, and the key of each.
#[derive(Drop)]
struct Found {
    keys: IndexSet<Key>,
    classes: Vec<Class>,
}

/// Puts a server into its class, where it is movable.
fn put(
    alloc: Global,
    case: &Case,
    movable: &[bool],
    racks: bool,
    how: Grouping,
    server: u32,
    found: &mut Found,
) -> Result<(), AllocError>
    requires flags { length movable.now ≡ length case.now.places }
    requires within { server < length case.now.places }
    requires found { IsFound how racks case.now (flagged_servers (take server movable.now)) found.old.keys.keys found.old.classes.items }
    ensures { OnOk result (IsFound how racks case.now (flagged_servers (take (server + 1) movable.now)) found.new.keys.keys found.new.classes.items) }
{
    if !movable[server as usize] {
        return Ok(());
    }
    let place = &case.places.as_slice()[server as usize];
    let (at, is_new) = found.keys.insert_full(key_of(how, racks, server, place))?;
    if is_new {
        found
            .classes
            .push(class_of_one(alloc, racks, server, place)?)?;
        Ok(())
    } else {
        add_member(&mut found.classes, at, server)
    }
}

/// The classes of the servers whose flags are set, in the order of their first members. With racks, servers of one class
/// stand on one rack. Time near linear in the servers, through a set of the keys.
pub fn group(
    alloc: Global,
    case: &Case,
    movable: &List<bool>,
    racks: bool,
    how: Grouping,
) -> Result<Classes, AllocError>
    requires { length movable.now ≡ length case.now.places }
    ensures { IfOk result (λ classes. classes.list ≡ classes_of how racks case.now (flagged_servers movable.now)) }
{
    let mut found = Found {
        keys: IndexSet::new(alloc),
        classes: Vec::new(alloc),
    };
    for server in 0..case.places.len() {
        put(
            alloc,
            case,
            movable.as_slice(),
            racks,
            how,
            server,
            &mut found,
        )?;
    }
    Ok(Classes {
        list: List::from_vec(found.classes),
    })
}
