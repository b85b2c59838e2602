ghost use Rattle.std.specs.Prelude.{◌≡◌};
ghost use Rattle.plan_model.specs.Levels.{number_at};

use crate::cases::Place;

/// What a region is divided into.
#[derive(Clone, Copy)]
pub enum Level {
    Board,
    Rack,
    Center,
}

/// The number of the part of that level in which a server stands.
pub fn number_at(level: Level, place: &Place) -> u32
    ensures { result ≡ number_at level place.now }
{
    match level {
        Level::Board => place.board,
        Level::Rack => place.rack,
        Level::Center => place.center,
    }
}
