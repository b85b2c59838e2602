//! Running sums of the units of one reservation.
ghost use Rattle.std.specs.Prelude.{◌≡◌, ◌<◌, ◌≤◌, length, slice_index, replicate};
ghost use Rattle.first_plans.specs.Sums.{added, keeps_by, number_of, units_lost};

use crate::reads::{need, protection};
use plan_model::{Case, Lost, Place, loss_at, losses_named};

/// The units of one reservation, in all, on each switchboard and in each datacenter.
#[derive(Drop)]
pub(crate) struct Sums {
    /// In all servers.
    pub(crate) all: u64,
    /// On each switchboard, by its number.
    pub(crate) on_board: [u64; 64],
    /// In each datacenter, by its number.
    pub(crate) in_center: [u64; 64],
}

impl Sums {
    /// No units.
    pub(crate) fn none() -> Sums
        ensures { result ≡ record { all = 0; on_board = replicate 64 0; in_center = replicate 64 0 } }
    {
        Sums {
            all: 0,
            on_board: [0u64; 64],
            in_center: [0u64; 64],
        }
    }

    /// A server gives so many units.
    pub(crate) fn add(&mut self, place: &Place, units: u32)
        requires board { place.now.board < 64 }
        requires center { place.now.center < 64 }
        requires boards { length self.old.on_board ≡ 64 }
        requires centers { length self.old.in_center ≡ 64 }
        requires units { units ≤ 1000 }
        requires all { self.old.all ≤ 20000000 }
        requires on_board { slice_index self.old.on_board place.now.board ≤ 20000000 }
        requires in_center { slice_index self.old.in_center place.now.center ≤ 20000000 }
        ensures { self.new ≡ added self.old place.now units }
    {
        self.all += u64::from(units);
        self.on_board[place.board as usize] += u64::from(units);
        self.in_center[place.center as usize] += u64::from(units);
    }

    /// The units that a loss takes.
    fn lost(&self, lost: Lost) -> u64
        requires number { number_of lost < 64 }
        requires boards { length self.now.on_board ≡ 64 }
        requires centers { length self.now.in_center ≡ 64 }
        ensures { result ≡ units_lost self.now lost }
    {
        match lost {
            Lost::Total => 0,
            Lost::Board(board) => self.on_board[board as usize],
            Lost::Center(center) => self.in_center[center as usize],
        }
    }

    /// Whether the need of reservation r is there, also after any one loss that its protection names.
    pub(crate) fn keep(&self, case: &Case, r: u32) -> bool
        requires in_range { r < length case.now.wants }
        requires boards { length self.now.on_board ≡ 64 }
        requires centers { length self.now.in_center ≡ 64 }
        ensures { result ≡ keeps_by case.now r self.now }
    {
        let need = need(case, r);
        if self.all < need {
            return false;
        }
        let protection = protection(case, r);
        for number in 0..losses_named(case, protection) {
            if self
                .all
                .saturating_sub(self.lost(loss_at(protection, number)))
                < need
            {
                return false;
            }
        }
        true
    }
}
