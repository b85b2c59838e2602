ghost use Rattle.std.specs.Prelude.{◌≡◌, ◌+◌, ◌≤◌, map, zip, length, IsTrue, if◌then◌else◌};
ghost use Rattle.online_mover.specs.Changes.{commanded};
ghost use Rattle.online_mover.specs.States.{held_for as held_for_of, bound_for as bound_for_of, counts_for as counts_for_of, moves as moves_of, stand_at_start as stand_at_start_of, with_target, server_at_start as server_at_start_of};
ghost use Rattle.online_mover.specs.Commands.{is_target as is_target_of, drained_stand as drained_stand_of};
ghost use Rattle.online_mover.specs.Causes.{stands_as_target as stands_as_target_of};
ghost use Rattle.online_mover.specs.Events.{after_drained, after_refused, after_joined, after_join_failed, after_down, after_up, after_tick};

use crate::stands::{Command, Server, Stand};
use plan_model::{Holder, Place};
use ras_table::List;

/// The reservation of a holder.
fn held_for(holder: Holder) -> Option<u32>
    ensures { result ≡ held_for_of holder }
{
    match holder {
        Holder::Held(r) => Some(r),
        Holder::Free | Holder::Gone => None,
    }
}

/// The reservation that a stand is bound to.
fn bound_for(stand: Stand) -> Option<u32>
    ensures { result ≡ bound_for_of stand }
{
    match stand {
        Stand::Bound(holder) => held_for(holder),
        Stand::Free | Stand::Joining(_) | Stand::Draining(_) => None,
    }
}

/// The reservation that a server counts for.
pub(crate) fn counts_for(server: Server) -> Option<u32>
    ensures { result ≡ counts_for_of server }
{
    if server.up {
        bound_for(server.stand)
    } else {
        None
    }
}

/// Whether a server is in flight.
pub(crate) fn moves(server: &Server) -> bool
    ensures { result ≡ moves_of server.now }
{
    match server.stand {
        Stand::Joining(_) | Stand::Draining(_) => true,
        Stand::Free | Stand::Bound(_) => false,
    }
}

/// Whether the target of a server is its holder.
pub(crate) fn is_target(target: Option<u32>, holder: Holder) -> bool
    ensures { result ≡ is_target_of target holder }
{
    match (holder, target) {
        (Holder::Held(r), Some(q)) => q == r,
        _ => false,
    }
}

/// Whether a server stands as its target says.
pub(crate) fn stands_as_target(server: Server) -> bool
    ensures { result ≡ stands_as_target_of server }
{
    match server.stand {
        Stand::Free => server.target.is_none(),
        Stand::Bound(holder) => is_target(server.target, holder),
        Stand::Joining(_) | Stand::Draining(_) => false,
    }
}

pub(crate) fn drained_stand(stand: Stand) -> Stand
    ensures { result ≡ drained_stand_of stand }
{
    match stand {
        Stand::Bound(holder) => Stand::Draining(holder),
        other => other,
    }
}

pub(crate) fn stand_at_start(holder: Holder) -> Stand
    ensures { result ≡ stand_at_start_of holder }
{
    match holder {
        Holder::Free => Stand::Free,
        Holder::Held(r) => Stand::Bound(Holder::Held(r)),
        Holder::Gone => Stand::Bound(Holder::Gone),
    }
}

/// The server after it was drained.
pub(crate) fn drained(server: Server) -> Option<Server>
    ensures { result ≡ after_drained server server.stand }
{
    match server.stand {
        Stand::Draining(_) => Some(Server {
            stand: Stand::Free,
            up: server.up,
            waits: server.waits,
            target: server.target,
        }),
        _ => None,
    }
}

/// The server after it refused to be drained.
pub(crate) fn refused(server: Server) -> Option<Server>
    ensures { result ≡ after_refused server server.stand }
{
    match server.stand {
        Stand::Draining(holder) => Some(Server {
            stand: Stand::Bound(holder),
            up: server.up,
            waits: true,
            target: server.target,
        }),
        _ => None,
    }
}

/// The server after it joined its reservation.
pub(crate) fn joined(server: Server) -> Option<Server>
    ensures { result ≡ after_joined server server.stand }
{
    match server.stand {
        Stand::Joining(r) => Some(Server {
            stand: Stand::Bound(Holder::Held(r)),
            up: server.up,
            waits: server.waits,
            target: server.target,
        }),
        _ => None,
    }
}

/// The server after it failed to join.
pub(crate) fn join_failed(server: Server) -> Option<Server>
    ensures { result ≡ after_join_failed server server.stand }
{
    match server.stand {
        Stand::Joining(_) => Some(Server {
            stand: Stand::Free,
            up: server.up,
            waits: true,
            target: server.target,
        }),
        _ => None,
    }
}

/// The server after it went down.
pub(crate) fn went_down(server: Server) -> Option<Server>
    ensures { result ≡ after_down server }
{
    if server.up {
        Some(Server {
            stand: server.stand,
            up: false,
            waits: server.waits,
            target: server.target,
        })
    } else {
        None
    }
}

/// The server after it came up.
pub(crate) fn came_up(server: Server) -> Option<Server>
    ensures { result ≡ after_up server }
{
    if server.up {
        None
    } else {
        Some(Server {
            stand: server.stand,
            up: true,
            waits: server.waits,
            target: server.target,
        })
    }
}

/// No server waits any more.
pub(crate) fn ticked(servers: &mut List<Server>)
    ensures { servers.new ≡ map after_tick servers.old }
{
    for i in 0..servers.len() {
        let server = servers.as_slice()[i as usize];
        servers.set(
            i,
            Server {
                stand: server.stand,
                up: server.up,
                waits: false,
                target: server.target,
            },
        );
    }
}

/// Each server with another target.
pub(crate) fn retargeted(servers: &mut List<Server>, of: &[Option<u32>])
    requires { length of.now ≡ length servers.old }
    ensures { servers.new ≡ map with_target (zip servers.old of.now) }
{
    for i in 0..servers.len() {
        let server = servers.as_slice()[i as usize];
        servers.set(
            i,
            Server {
                stand: server.stand,
                up: server.up,
                waits: server.waits,
                target: of[i as usize],
            },
        );
    }
}

/// Where a server stands at the start.
pub(crate) fn server_at_start(place: &Place, target: Option<u32>) -> Server
    ensures { result ≡ server_at_start_of (place.now, target) }
{
    Server {
        stand: stand_at_start(place.holder),
        up: place.up,
        waits: false,
        target,
    }
}

/// How many are in flight when one server that was in flight or not now is or is not.
pub(crate) fn flying_with(flying: u32, was: bool, is: bool) -> u32
    requires some { IsTrue was → 1 ≤ flying }
    requires few { flying ≤ 64 }
    ensures { result + (if was then 1 else 0) ≡ flying + (if is then 1 else 0) }
{
    match (was, is) {
        (true, false) => flying - 1,
        (false, true) => flying + 1,
        _ => flying,
    }
}

/// The server that a command is for.
pub(crate) fn server_of_command(command: Command) -> u32
    ensures { result ≡ commanded command }
{
    match command {
        Command::Drain { server } => server,
        Command::Bind { server, .. } => server,
    }
}
