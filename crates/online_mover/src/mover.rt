ghost use Rattle.std.specs.Prelude.{◌≡◌, ◌<◌, ◌≤◌, ◌↔◌, ℕ, true, Some, None, IsTrue, IfOk, length, is_some, if◌then◌else◌};
ghost use Rattle.std.specs.Option.{unwrap_or, option_map};
ghost use Rattle.plan_model.specs.Allowed.{fits, serves};
ghost use Rattle.plan_model.specs.Units.{servers_with_places};
ghost use Rattle.std.specs.List.{list_all};
ghost use Rattle.online_mover.specs.States.{State, state_rule, state_at_start, with_targets, with_server, server_of, in_flight as in_flight_of, is_protected, server_in_range, held_for};
ghost use Rattle.online_mover.specs.Commands.{command_of as command_for, least_command as least_command_of, after_command, spares as spares_of, is_protected_without};
ghost use Rattle.online_mover.specs.Causes.{cause_of};
ghost use Rattle.online_mover.specs.Events.{after_event, event_in_case};
ghost use Rattle.online_mover.specs.Changes.{ChangeKeepsRule, NoneBelow};
ghost use Rattle.online_mover.specs.Steps.{IsStep};

use crate::commands::Commands;
use crate::copies::{copy_case, servers_at_start};
use crate::counting::{Counting, counting_of};
use crate::servers::{
    came_up, counts_for, drained, drained_stand, flying_with, is_target, join_failed, joined,
    moves, refused, retargeted, server_of_command, stands_as_target, ticked, went_down,
};
use crate::stands::{Cause, Command, Event, Server, Stand, Taken};
use plan_model::{Assignment, Case, Holder};
use ras_table::List;
use std::alloc::{AllocError, Global};
use std::marker::Model;

/// Servers on their way to a target, at most so many at once. Beside the servers it keeps which of them count, the units that
/// this gives each reservation, and how many are in flight, so that a step looks at each server at most once.
#[derive(Debug, Drop)]
pub struct Mover {
    at_once: u32,
    servers: List<Server>,
    counting: Counting,
    flying: u32,
}

impl Model for Mover {
    ghost use Rattle.std.specs.Prelude.{◌≡◌, IsTrue, map, count_by};
    ghost use Rattle.online_mover.specs.States.{State, state_rule, counts_for, moves};

    ghost Value = { State };

    ghost view = { λ mover. record { case = mover.counting.case; at_once = mover.at_once; servers = mover.servers } };

    ghost invariant = { λ mover. IsTrue (state_rule (record { case = mover.counting.case; at_once = mover.at_once; servers = mover.servers }))
        × (mover.counting.counts.of ≡ map counts_for mover.servers) × (mover.flying ≡ count_by moves mover.servers) };
}

impl Mover {
    /// The servers of the case where it has them, on their way to the target, at most `at_once` in flight. No command is given
    /// yet. This takes all the memory that the mover needs.
    pub fn start(
        alloc: Global,
        case: &Case,
        target: &Assignment,
        at_once: u32,
    ) -> Result<Mover, AllocError>
        requires fitting { IsTrue (fits case.now target.now) }
        requires serving { IsTrue (list_all (serves case.now) (servers_with_places case.now target.now)) }
        requires some { 1 ≤ at_once }
        requires few { at_once ≤ 64 }
        ensures { IfOk result (λ mover. mover ≡ state_at_start case.now target.now at_once) }
    {
        let servers = servers_at_start(alloc, case, target)?;
        let own_case = copy_case(alloc, case)?;
        let counting = counting_of(alloc, own_case, &servers)?;
        Ok(Mover {
            at_once,
            servers,
            counting,
            flying: 0,
        })
    }

    /// Gives each server another target. No command is given.
    pub fn replan(&mut self, target: &Assignment)
        requires fitting { IsTrue (fits self.old.case target.now) }
        requires serving { IsTrue (list_all (serves self.old.case) (servers_with_places self.old.case target.now)) }
        ensures { self.new ≡ with_targets self.old target.now }
    {
        retargeted(&mut self.servers, target.of.as_slice());
    }

    /// Where a server stands.
    pub fn stand(&self, server: u32) -> Stand
        requires { server < length self.now.servers }
        ensures { result ≡ (server_of self.now server).stand }
    {
        self.servers.as_slice()[server as usize].stand
    }

    /// Whether a server is up.
    pub fn is_up(&self, server: u32) -> bool
        requires { server < length self.now.servers }
        ensures { result ≡ (server_of self.now server).up }
    {
        self.servers.as_slice()[server as usize].up
    }

    /// Whether the servers that are up and bound to a reservation keep its need.
    pub fn protected(&self, r: u32) -> bool
        requires { r < length self.now.case.wants }
        ensures { result ≡ is_protected self.now r }
    {
        self.counting.keeps_need(r)
    }

    /// Every mover keeps the rule of a state. This changes nothing.
    pub fn keeps_rule(&self)
        ensures { IsTrue (state_rule self.now) }
    {
        // A mover that is read shows its rule.
        let _at_once = self.at_once;
    }

    /// How many servers are in flight.
    fn in_flight(&self) -> u32
        ensures count { result ≡ in_flight_of self.now }
        ensures room { result ≤ self.now.at_once }
    {
        self.flying
    }

    /// Whether a reservation is protected when a server that counts for it no longer does.
    fn protected_without(&self, server: u32, r: u32) -> bool
        requires there { server < length self.now.servers }
        requires up { IsTrue (server_of self.now server).up }
        requires bound { (server_of self.now server).stand ≡ Stand.Bound (Holder.Held r) }
        ensures { result ≡ is_protected_without self.now server (Holder.Held r) r }
    {
        self.counting.keeps_need_without(r, server)
    }

    /// Whether the holder of a server that counts spares it.
    fn spares(&self, server: u32, holder: Holder) -> bool
        requires there { server < length self.now.servers }
        requires up { IsTrue (server_of self.now server).up }
        requires bound { (server_of self.now server).stand ≡ Stand.Bound holder }
        ensures { result ≡ spares_of self.now server holder }
    {
        match holder {
            Holder::Held(r) => self.protected_without(server, r),
            Holder::Free | Holder::Gone => true,
        }
    }

    /// The lawful command of a server, where there is room in flight.
    fn command_of(&self, server: u32) -> Option<Command>
        requires there { server < length self.now.servers }
        requires room { in_flight_of self.now < self.now.at_once }
        ensures { result ≡ command_for self.now server }
    {
        let at = self.servers.as_slice()[server as usize];
        if !at.up || at.waits {
            return None;
        }
        match at.stand {
            Stand::Free => at.target.map(|to| Command::Bind { server, to }),
            Stand::Bound(holder) => if !is_target(at.target, holder)
                && self.spares(server, holder)
            {
                Some(Command::Drain { server })
            } else {
                None
            },
            Stand::Joining(_) | Stand::Draining(_) => None,
        }
    }

    /// The lawful command of the least server number, where no server below a number has one.
    fn least_command(&self, from: u32) -> Option<Command>
        requires { NoneBelow self.now from }
        ensures least { result ≡ least_command_of self.now }
        ensures rule { IsTrue (state_rule self.now) }
    {
        if self.in_flight() >= self.at_once {
            return None;
        }
        for server in from..self.servers.len() {
            if let Some(command) = self.command_of(server) {
                return Some(command);
            }
        }
        None
    }

    /// Why a server does not yet stand as its target says: None where it does, or is in flight.
    pub fn blocked(&self, server: u32) -> Option<Cause>
        requires { server < length self.now.servers }
        ensures { result ≡ cause_of self.now server }
    {
        let at = self.servers.as_slice()[server as usize];
        if stands_as_target(at) || moves(&at) {
            return None;
        }
        if !at.up {
            return Some(Cause::Down);
        }
        if at.waits {
            return Some(Cause::Waiting);
        }
        if self.at_once <= self.in_flight() {
            return Some(Cause::Full);
        }
        match at.stand {
            Stand::Bound(Holder::Held(r)) => if self.protected_without(server, r) {
                Some(Cause::Ready)
            } else {
                Some(Cause::Unsafe(r))
            },
            _ => Some(Cause::Ready),
        }
    }

    /// Puts a server in place of one.
    fn put(&mut self, server: u32, new: Server)
        requires there { server < length self.old.servers }
        requires rule { IsTrue (state_rule (with_server self.old server new)) }
        ensures { self.new ≡ with_server self.old server new }
    {
        let old = self.servers.as_slice()[server as usize];
        self.flying = flying_with(self.flying, moves(&old), moves(&new));
        self.counting.count(server, counts_for(new));
        self.servers.set(server, new);
    }

    /// Puts a server in place of one, where there is one to put.
    fn put_some(&mut self, server: u32, new: Option<Server>) -> bool
        requires there { server < length self.old.servers }
        requires rule { ChangeKeepsRule self.old server new }
        ensures put { result ≡ is_some new }
        ensures state { self.new ≡ unwrap_or (option_map (with_server self.old server) new) self.old }
    {
        match new {
            None => false,
            Some(new) => {
                self.put(server, new);
                true
            }
        }
    }

    fn server(&self, server: u32) -> Server
        requires { server < length self.now.servers }
        ensures at { result ≡ server_of self.now server }
        ensures rule { IsTrue (state_rule self.now) }
    {
        self.servers.as_slice()[server as usize]
    }

    /// No server waits any more.
    fn tick(&mut self)
        ensures { after_event self.old Event.Tick ≡ Some self.new }
    {
        ticked(&mut self.servers);
    }

    /// Makes the change of an event, where it is lawful.
    fn take(&mut self, event: Event) -> bool
        requires { IsTrue (event_in_case self.old event) }
        ensures lawful { result ≡ is_some (after_event self.old event) }
        ensures state { self.new ≡ unwrap_or (after_event self.old event) self.old }
    {
        match event {
            Event::Tick => {
                self.tick();
                true
            }
            Event::Drained(server) => self.put_some(server, drained(self.server(server))),
            Event::Refused(server) => self.put_some(server, refused(self.server(server))),
            Event::Joined(server) => self.put_some(server, joined(self.server(server))),
            Event::JoinFailed(server) => self.put_some(server, join_failed(self.server(server))),
            Event::Down(server) => self.put_some(server, went_down(self.server(server))),
            Event::Up(server) => self.put_some(server, came_up(self.server(server))),
        }
    }

    /// Makes the change of a command that is lawful.
    fn carry_out(&mut self, command: Command)
        requires { least_command_of self.old ≡ Some command }
        ensures { self.new ≡ after_command self.old command }
    {
        match command {
            Command::Drain { server } => {
                let at = self.server(server);
                self.put(
                    server,
                    Server {
                        stand: drained_stand(at.stand),
                        up: at.up,
                        waits: at.waits,
                        target: at.target,
                    },
                );
            }
            Command::Bind { server, to } => {
                let at = self.server(server);
                self.put(
                    server,
                    Server {
                        stand: Stand::Joining(to),
                        up: at.up,
                        waits: at.waits,
                        target: at.target,
                    },
                );
            }
        }
    }

    /// Takes an event, and gives lawful commands until there is none: `out` then holds these commands alone. An event that is not
    /// lawful changes nothing and gives none.
    pub fn step(&mut self, event: Event, out: &mut Commands) -> Taken
        requires { IsTrue (event_in_case self.old event) }
        ensures { IsStep self.old event result out.new self.new }
    {
        out.clear();
        if !self.take(event) {
            return Taken::Stale;
        }
        let mut from = 0;
        while let Some(command) = self.least_command(from) {
            self.carry_out(command);
            out.put(command);
            from = server_of_command(command) + 1;
        }
        Taken::Taken
    }
}
