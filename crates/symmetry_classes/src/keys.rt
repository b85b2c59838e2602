ghost use Rattle.std.specs.Prelude.{◌≡◌};
ghost use Rattle.symmetry_classes.specs.Keys.{key_of};

use plan_model::{Grouping, Holder, Place};

/// What the servers of one class have in common.
#[derive(Clone, Copy, PartialEq, Eq, Hash)]
pub enum Key {
    Single(u32),
    Alike {
        kind: u32,
        rack: Option<u32>,
        board: u32,
        holder: Holder,
        busy: bool,
    },
}

/// The key of the class of a server.
pub fn key_of(how: Grouping, racks: bool, server: u32, place: &Place) -> Key
    ensures { result ≡ key_of how racks server place.now }
{
    match how {
        Grouping::Single => Key::Single(server),
        Grouping::Class => Key::Alike {
            kind: place.kind,
            rack: racks.then_some(place.rack),
            board: place.board,
            holder: place.holder,
            busy: place.busy,
        },
    }
}
