ghost use Rattle.std.specs.Prelude.{◌≡◌, ◌<◌, ◌+◌, IsTrue, IfOk, IfSome, None, length, replicate};
ghost use Rattle.std.specs.List.{list_all};
ghost use Rattle.plan_model.specs.Allowed.{fits, serves};
ghost use Rattle.plan_model.specs.Units.{servers_with_places, place_of};
ghost use Rattle.spare_pool.specs.States.{state_at_start, standing_of, with_standing, units_of, may_stand, down, serving, value_of, counts_for as counts_for_of, standing_at_start as standing_at_start_of};
ghost use Rattle.spare_pool.specs.Spares.{NoneIsEnough, IsLeastAmong, IsGreatestAmong, FindsLeast, FindsGreatest};
ghost use Rattle.spare_pool.specs.Steps.{IsStep, IsFilled, IsLoss, IsFail, IsRepair, change_within};

use crate::choice::{larger, lesser};
use crate::firsts::renew;
use crate::reads::value;
use crate::standings::{Change, Outcome, Standing};
use crate::units::{lessen, raise};
use plan_model::{Assignment, Case, Place, copy_case};
use ras_table::List;
use std::alloc::{AllocError, Global};
use std::marker::Model;

const DOWN: Standing = Standing {
    serves: None,
    up: false,
};

const FREE: Standing = Standing {
    serves: None,
    up: true,
};

// The reservation that a server counts for.
fn counts_for(standing: Standing) -> Option<u32>
    ensures { result ≡ counts_for_of standing }
{
    if standing.up { standing.serves } else { None }
}

// How a server stands at the start.
fn standing_at_start(place: &Place, to: Option<u32>) -> Standing
    ensures { result ≡ standing_at_start_of (place.now, to) }
{
    Standing {
        serves: to,
        up: place.up,
    }
}

// So many servers that are down.
fn downs(alloc: Global, servers: u32) -> Result<List<Standing>, AllocError>
    ensures { IfOk result (λ list. list ≡ replicate servers down) }
{
    let items = vec![in alloc; DOWN; servers as usize]?;
    Ok(List::from_vec(items))
}

// No units of so many reservations.
fn no_units(alloc: Global, reservations: u32) -> Result<List<u64>, AllocError>
    ensures { IfOk result (λ list. list ≡ replicate reservations 0) }
{
    let items = vec![in alloc; 0u64; reservations as usize]?;
    Ok(List::from_vec(items))
}

// No spare of so many types.
fn no_firsts(alloc: Global, types: u32) -> Result<List<Option<u32>>, AllocError>
    ensures { IfOk result (λ list. list ≡ replicate types None) }
{
    let items = vec![in alloc; None; types as usize]?;
    Ok(List::from_vec(items))
}

/// Servers that serve reservations, and spares that take the place of a server that fails. Beside the servers it keeps the
/// units of each reservation and the first spare of each type, so that a change does not look at each server.
#[derive(Debug, Drop)]
pub struct Pool {
    case: Case,
    servers: List<Standing>,
    units: List<u64>,
    firsts: List<Option<u32>>,
}

impl Model for Pool {
    ghost use Rattle.std.specs.Prelude.{IsTrue};
    ghost use Rattle.spare_pool.specs.States.{State, state_rule};
    ghost use Rattle.spare_pool.specs.Sums.{AreUnits};
    ghost use Rattle.spare_pool.specs.Firsts.{AreFirsts};

    ghost Value = { State };

    ghost view = { λ pool. record { case = pool.case; servers = pool.servers } };

    ghost invariant = { λ pool. IsTrue (state_rule (record { case = pool.case; servers = pool.servers }))
        × AreUnits (record { case = pool.case; servers = pool.servers }) pool.units
        × AreFirsts (record { case = pool.case; servers = pool.servers }) pool.firsts };
}

impl Pool {
    /// The servers of a case, each of which serves what an assignment says. This takes all the memory that the pool needs.
    pub fn start(alloc: Global, case: &Case, a: &Assignment) -> Result<Pool, AllocError>
        requires fitting { IsTrue (fits case.now a.now) }
        requires serving { IsTrue (list_all (serves case.now) (servers_with_places case.now a.now)) }
        ensures start { IfOk result (λ pool. pool ≡ state_at_start case.now a.now) }
        ensures case { IfOk result (λ pool. pool.case ≡ case.now) }
        ensures servers { IfOk result (λ pool. length pool.servers ≡ length case.now.places) }
    {
        let own = copy_case(alloc, case)?;
        let mut pool = Pool::all_down(alloc, own)?;
        let places = case.places.as_slice();
        let of = a.of.as_slice();
        for server in 0..a.of.len() {
            let standing = standing_at_start(&places[server as usize], of[server as usize]);
            pool.put(server, standing);
        }
        Ok(pool)
    }

    // The servers of a case, all of them down.
    fn all_down(alloc: Global, case: Case) -> Result<Pool, AllocError>
        ensures { IfOk result (λ pool. pool ≡ record { case = case; servers = replicate (length case.places) down }) }
    {
        let count = case.places.len();
        let wants = case.wants.len();
        let servers = downs(alloc, count)?;
        let units = no_units(alloc, wants)?;
        let firsts = no_firsts(alloc, case.kinds)?;
        Ok(Pool {
            case,
            servers,
            units,
            firsts,
        })
    }

    /// The reservation that a server serves, or None.
    pub fn serving(&self, server: u32) -> Option<u32>
        requires { server < length self.now.servers }
        ensures { result ≡ (standing_of self.now server).serves }
    {
        self.servers.as_slice()[server as usize].serves
    }

    /// Whether a server is up.
    pub fn is_up(&self, server: u32) -> bool
        requires { server < length self.now.servers }
        ensures { result ≡ (standing_of self.now server).up }
    {
        self.servers.as_slice()[server as usize].up
    }

    /// The units of reservation r: its values for the types of the up servers that serve it, added up.
    pub fn units(&self, r: u32) -> u64
        requires { r < length self.now.case.wants }
        ensures { result ≡ units_of self.now r }
    {
        self.units.as_slice()[r as usize]
    }

    // A server stands otherwise.
    fn put(&mut self, server: u32, new: Standing)
        requires there { server < length self.old.servers }
        requires stands { IsTrue (may_stand self.old.case (place_of self.old.case server, new)) }
        ensures { self.new ≡ with_standing self.old server new }
    {
        let old = self.servers.as_slice()[server as usize];
        lessen(&self.case, &mut self.units, server, counts_for(old));
        raise(&self.case, &mut self.units, server, counts_for(new));
        self.servers.set(server, new);
        renew(&self.case, &self.servers, server, &mut self.firsts);
    }

    // The better of the spare so far and the first one of a type, where enough is asked of it.
    fn nearer(&self, r: u32, least: u32, kind: u32, best: Option<u32>) -> Option<u32>
        requires in_range { r < length self.now.case.wants }
        requires kind { kind < self.now.case.kinds }
        requires best { IsLeastAmong self.now r least kind best }
        ensures { IsLeastAmong self.now r least (kind + 1) result }
    {
        let first = self.firsts.as_slice()[kind as usize];
        lesser(&self.case, r, least, kind, best, first)
    }

    // Of the spares that give reservation r enough, the one of least value, then the first in the file.
    fn least(&self, r: u32, least: u32) -> Option<u32>
        requires { r < length self.now.case.wants }
        ensures { FindsLeast self.now r least result }
    {
        let mut best = None;
        for kind in 0..self.case.kinds {
            best = self.nearer(r, least, kind, best);
        }
        best
    }

    // The better of the spare so far and the first one of a type, where as much as there is asked of it.
    fn greater(&self, r: u32, kind: u32, best: Option<u32>) -> Option<u32>
        requires in_range { r < length self.now.case.wants }
        requires kind { kind < self.now.case.kinds }
        requires best { IsGreatestAmong self.now r kind best }
        ensures { IsGreatestAmong self.now r (kind + 1) result }
    {
        let first = self.firsts.as_slice()[kind as usize];
        larger(&self.case, r, kind, best, first)
    }

    // Of the spares that give reservation r anything, the one of greatest value, then the first in the file.
    fn greatest(&self, r: u32) -> Option<u32>
        requires { r < length self.now.case.wants }
        ensures { FindsGreatest self.now r result }
    {
        let mut best = None;
        for kind in 0..self.case.kinds {
            best = self.greater(r, kind, best);
        }
        best
    }

    // How a server stands.
    fn standing(&self, server: u32) -> Standing
        requires { server < length self.now.servers }
        ensures at { result ≡ standing_of self.now server }
        ensures serves { IfSome result.serves (λ r. (r < length self.now.case.wants) × (0 < value_of self.now r server)) }
    {
        self.servers.as_slice()[server as usize]
    }

    // The value of reservation r for a server's type.
    fn value(&self, r: u32, server: u32) -> u32
        requires in_range { r < length self.now.case.wants }
        requires there { server < length self.now.servers }
        ensures { result ≡ value_of self.now r server }
    {
        value(&self.case, r, server)
    }

    // A spare serves reservation r.
    fn take(&mut self, r: u32, spare: u32)
        requires in_range { r < length self.old.case.wants }
        requires there { spare < length self.old.servers }
        requires some { 0 < value_of self.old r spare }
        ensures { self.new ≡ with_standing self.old spare (serving r) }
    {
        self.put(
            spare,
            Standing {
                serves: Some(r),
                up: true,
            },
        );
    }

    // Reservation r has lost a server that gave it a value which no spare gives.
    fn fall_short(&mut self, r: u32, lost: u32) -> Outcome
        requires in_range { r < length self.old.case.wants }
        requires none { NoneIsEnough self.old r lost }
        ensures { IsFilled self.old r lost result self.new }
    {
        match self.greatest(r) {
            Some(by) => {
                let given = self.value(r, by);
                let missing = lost - given;
                self.take(r, by);
                Outcome::Short {
                    r,
                    by: Some(by),
                    missing,
                }
            }
            None => Outcome::Short {
                r,
                by: None,
                missing: lost,
            },
        }
    }

    // Reservation r has lost a server that gave it this value.
    fn fill(&mut self, r: u32, lost: u32) -> Outcome
        requires in_range { r < length self.old.case.wants }
        requires some { 0 < lost }
        ensures { IsFilled self.old r lost result self.new }
    {
        match self.least(r, lost) {
            Some(by) => {
                self.take(r, by);
                Outcome::Replaced { r, by }
            }
            None => self.fall_short(r, lost),
        }
    }

    // A server that is up and serves this reservation, or none, fails.
    fn lose(&mut self, server: u32, serves: Option<u32>) -> Outcome
        requires there { server < length self.old.servers }
        requires lost { IfSome serves (λ r. (r < length self.old.case.wants) × (0 < value_of self.old r server)) }
        ensures { IsLoss self.old server serves result self.new }
    {
        self.put(server, DOWN);
        match serves {
            None => Outcome::Idle,
            Some(r) => {
                let lost = self.value(r, server);
                self.fill(r, lost)
            }
        }
    }

    // A server fails.
    fn fail(&mut self, server: u32) -> Outcome
        requires { server < length self.old.servers }
        ensures { IsFail self.old server (standing_of self.old server).up result self.new }
    {
        let now = self.standing(server);
        let up = now.up;
        if up {
            self.lose(server, now.serves)
        } else {
            Outcome::Stale
        }
    }

    // A server is repaired.
    fn repair(&mut self, server: u32) -> Outcome
        requires { server < length self.old.servers }
        ensures { IsRepair self.old server (standing_of self.old server).up result self.new }
    {
        let now = self.standing(server);
        let up = now.up;
        if up {
            Outcome::Stale
        } else {
            self.put(server, FREE);
            Outcome::Returned
        }
    }

    /// Makes a change, and says what it led to. A server that fails is down and serves none. Where it served a reservation, a
    /// spare takes its place: of those whose value is no less, the one of least value, and else the one of greatest value above
    /// 0; of several the first in the file. A server that is repaired is up and serves none.
    pub fn change(&mut self, change: Change) -> Outcome
        requires { IsTrue (change_within (length self.old.servers) change) }
        ensures step { IsStep self.old change result self.new }
        ensures case { self.new.case ≡ self.old.case }
        ensures servers { length self.new.servers ≡ length self.old.servers }
    {
        match change {
            Change::Fail(server) => self.fail(server),
            Change::Repair(server) => self.repair(server),
        }
    }
}
