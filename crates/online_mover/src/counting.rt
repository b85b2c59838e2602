ghost use Rattle.std.specs.Prelude.{◌≡◌, ◌<◌, ◌≤◌, ◌^◌, IsTrue, IfOk, length, map, nat_lt, true, Some, None, slice_index, slice_index_or};
ghost use Rattle.std.specs.Option.{option_map_or};
ghost use Rattle.plan_model.specs.Units.{free_plan as free_plan_of, units as units_of, units_where};
ghost use Rattle.plan_model.specs.Losses.{is_lost as is_lost_of};
ghost use Rattle.plan_model.specs.Allowed.{keeps_need as keeps_need_of};
ghost use Rattle.online_mover.specs.Without.{without};
ghost use Rattle.std.specs.List.{list_all};
ghost use Rattle.online_mover.specs.States.{server_in_range, counts_for as counts_for_of};
ghost use Rattle.online_mover.specs.Sums.{with_count, Counted};

use crate::reads::{place, value, want};
use crate::servers::counts_for;
use crate::stands::Server;
use crate::sums::{Sums, entry, lessen, raise, sums_of_none};
use plan_model::{Assignment, Case, Lost, free_plan, is_lost, loss_at, losses_named};
use ras_table::List;
use std::alloc::{AllocError, Global};
use std::marker::Model;

/// A case, and the reservation that each of its servers counts for. Beside it are the units that this gives each
/// reservation, which change with one server in a time that does not grow with the number of servers.
#[derive(Debug, Drop)]
pub struct Counting {
    case: Case,
    counts: Assignment,
    sums: List<Sums>,
}

impl Model for Counting {
    ghost use Rattle.std.specs.Prelude.{IsTrue};
    ghost use Rattle.plan_model.specs.Allowed.{fits};
    ghost use Rattle.online_mover.specs.Sums.{Counted, AreSums};

    ghost Value = { Counted };

    ghost view = { λ counting. record { case = counting.case; counts = counting.counts } };

    ghost invariant = { λ counting. IsTrue (fits counting.case counting.counts) × AreSums counting.case counting.counts counting.sums };
}

impl Counting {
    /// A case in which no server counts.
    pub fn new(alloc: Global, case: Case) -> Result<Counting, AllocError>
        ensures { IfOk result (λ counting. counting ≡ record { case = case; counts = free_plan_of case }) }
    {
        let counts = free_plan(alloc, &case)?;
        let sums = sums_of_none(alloc, case.wants.len())?;
        Ok(Counting { case, counts, sums })
    }

    // A server that counted for a reservation no longer does.
    fn leave(&mut self, server: u32)
        requires { server < length self.old.case.places }
        ensures { self.new ≡ with_count self.old server None }
    {
        if let Some(r) = self.counts.of.as_slice()[server as usize] {
            let at = place(&self.case, server);
            let units = value(&self.case, r, server);
            lessen(&mut self.sums, r, at.board, at.center, units);
            self.counts.of.set(server, None);
        }
    }

    // A server that counted for none now does for this one.
    fn enter(&mut self, server: u32, r: u32)
        requires there { server < length self.old.case.places }
        requires in_range { r < length self.old.case.wants }
        requires free { slice_index_or self.old.counts.of server None ≡ None }
        ensures { self.new ≡ with_count self.old server (Some r) }
    {
        let at = place(&self.case, server);
        let units = value(&self.case, r, server);
        raise(&mut self.sums, r, at.board, at.center, units);
        self.counts.of.set(server, Some(r));
    }

    /// A server counts for this reservation, or for none.
    pub fn count(&mut self, server: u32, to: Option<u32>)
        requires there { server < length self.old.case.places }
        requires in_range { option_map_or (λ r. nat_lt r (length self.old.case.wants)) to true ≡ true }
        ensures { self.new ≡ with_count self.old server to }
    {
        self.leave(server);
        if let Some(r) = to {
            self.enter(server, r);
        }
    }

    // The units of reservation r.
    fn units(&self, r: u32) -> u64
        requires { r < length self.now.case.wants }
        ensures { result ≡ units_of self.now.case self.now.counts r }
    {
        self.sums.as_slice()[r as usize].total
    }

    // The units of reservation r that a loss takes.
    fn units_lost(&self, r: u32, lost: Lost) -> u64
        requires { r < length self.now.case.wants }
        ensures { result ≡ units_where (is_lost_of lost) self.now.case self.now.counts r }
    {
        let sums = &self.sums.as_slice()[r as usize];
        match lost {
            Lost::Total => 0,
            Lost::Board(board) => entry(&sums.boards, board),
            Lost::Center(center) => entry(&sums.centers, center),
        }
    }

    // The units of reservation r without one of its servers.
    fn units_without(&self, r: u32, server: u32) -> u64
        requires in_range { r < length self.now.case.wants }
        requires there { server < length self.now.case.places }
        requires counts { slice_index_or self.now.counts.of server None ≡ Some r }
        ensures { result ≡ units_of self.now.case (without self.now.counts server) r }
    {
        self.units(r) - value(&self.case, r, server)
    }

    // The units of reservation r that a loss takes, without one of its servers.
    fn units_lost_without(&self, r: u32, server: u32, lost: Lost) -> u64
        requires in_range { r < length self.now.case.wants }
        requires there { server < length self.now.case.places }
        requires counts { slice_index_or self.now.counts.of server None ≡ Some r }
        ensures { result ≡ units_where (is_lost_of lost) self.now.case (without self.now.counts server) r }
    {
        let all = self.units_lost(r, lost);
        if is_lost(lost, &place(&self.case, server)) {
            all - value(&self.case, r, server)
        } else {
            all
        }
    }

    /// Whether reservation r keeps its need.
    pub fn keeps_need(&self, r: u32) -> bool
        requires { r < length self.now.case.wants }
        ensures { result ≡ keeps_need_of self.now.case self.now.counts r }
    {
        let want = want(&self.case, r);
        let need = u64::from(want.need);
        let all = self.units(r);
        if all < need {
            return false;
        }
        for number in 0..losses_named(&self.case, want.protection) {
            let lost = self.units_lost(r, loss_at(want.protection, number));
            if all - lost < need {
                return false;
            }
        }
        true
    }

    /// Whether reservation r keeps its need without one of its servers.
    pub fn keeps_need_without(&self, r: u32, server: u32) -> bool
        requires in_range { r < length self.now.case.wants }
        requires there { server < length self.now.case.places }
        requires counts { slice_index_or self.now.counts.of server None ≡ Some r }
        ensures { result ≡ keeps_need_of self.now.case (without self.now.counts server) r }
    {
        let want = want(&self.case, r);
        let need = u64::from(want.need);
        let all = self.units_without(r, server);
        if all < need {
            return false;
        }
        for number in 0..losses_named(&self.case, want.protection) {
            let lost = self.units_lost_without(r, server, loss_at(want.protection, number));
            if all - lost < need {
                return false;
            }
        }
        true
    }
}

/// A case in which each server counts for what it stands for.
pub(crate) fn counting_of(
    alloc: Global,
    case: Case,
    servers: &List<Server>,
) -> Result<Counting, AllocError>
    requires long { length servers.now ≡ length case.places }
    requires range { list_all (server_in_range (length case.wants)) servers.now ≡ true }
    ensures case { IfOk result (λ counting. counting.case ≡ case) }
    ensures counts { IfOk result (λ counting. counting.counts.of ≡ map counts_for_of servers.now) }
{
    let mut counting = Counting::new(alloc, case)?;
    for i in 0..servers.len() {
        counting.count(i, counts_for(servers.as_slice()[i as usize]));
    }
    Ok(counting)
}
