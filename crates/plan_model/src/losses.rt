ghost use Rattle.std.specs.Prelude.{◌≡◌};
ghost use Rattle.plan_model.specs.Losses.{is_lost as is_lost_of, losses_named as losses_named_of, loss_at as loss_at_of};

use crate::cases::{Case, Place};
use ras_requests::Protection;

/// What is lost.
#[derive(Clone, Copy, Debug, PartialEq, Eq)]
pub enum Lost {
    /// Nothing.
    Total,
    /// The servers of the switchboard of that number.
    Board(u32),
    /// The servers of the datacenter of that number.
    Center(u32),
}

/// Whether a server is lost.
pub fn is_lost(lost: Lost, place: &Place) -> bool
    ensures { result ≡ is_lost_of lost place.now }
{
    match lost {
        Lost::Total => false,
        Lost::Board(board) => place.board == board,
        Lost::Center(center) => place.center == center,
    }
}

/// How many losses a protection names: none, each switchboard, or each datacenter.
pub fn losses_named(case: &Case, protection: Protection) -> u32
    ensures { result ≡ losses_named_of case.now protection }
{
    match protection {
        Protection::Total => 0,
        Protection::Board => case.boards,
        Protection::Center => case.centers,
    }
}

/// The loss of that number.
pub fn loss_at(protection: Protection, number: u32) -> Lost
    ensures { result ≡ loss_at_of protection number }
{
    match protection {
        Protection::Total => Lost::Total,
        Protection::Board => Lost::Board(number),
        Protection::Center => Lost::Center(number),
    }
}
