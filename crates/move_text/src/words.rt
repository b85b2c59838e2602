ghost use Rattle.std.specs.Prelude.{◌≡◌};
ghost use Rattle.ras_inventory.specs.RegionRule.{server_names};
ghost use Rattle.ras_requests.specs.RequestsRule.{reservation_names};
ghost use Rattle.move_text.specs.Lines.{name_at, holder_text, drained_text, event_text, event_server, cause_text, cause_reservation};

use online_mover::{Cause, Event, Stand};
use plan_model::Holder;
use ras_inventory::Region;
use ras_requests::Requests;

/// The name of a server, and no text where there is none with this number.
pub(crate) fn server_name(region: &Region, server: u32) -> &[u8]
    ensures { result.now ≡ name_at (server_names region.now.servers) server }
{
    match region.servers.as_slice().get(server as usize) {
        Some(server) => server.name.bytes(),
        None => b"",
    }
}

/// The name of a reservation, and no text where there is none with this number.
pub(crate) fn reservation_name(requests: &Requests, r: u32) -> &[u8]
    ensures { result.now ≡ name_at (reservation_names requests.now.list) r }
{
    match requests.list.as_slice().get(r as usize) {
        Some(reservation) => reservation.name.bytes(),
        None => b"",
    }
}

fn holder_text(requests: &Requests, holder: Holder) -> &[u8]
    ensures { result.now ≡ holder_text (reservation_names requests.now.list) holder }
{
    match holder {
        Holder::Held(r) => reservation_name(requests, r),
        Holder::Free | Holder::Gone => b"",
    }
}

/// The holder that a server drains from, by name.
pub(crate) fn drained_text(requests: &Requests, stand: Stand) -> &[u8]
    ensures { result.now ≡ drained_text (reservation_names requests.now.list) stand }
{
    match stand {
        Stand::Draining(holder) => holder_text(requests, holder),
        Stand::Free | Stand::Joining(_) | Stand::Bound(_) => b"",
    }
}

/// The word of an event.
pub(crate) fn event_text(event: Event) -> &'static [u8]
    ensures { result.now ≡ event_text event }
{
    match event {
        Event::Tick => b"tick",
        Event::Drained(_) => b"drained",
        Event::Refused(_) => b"refused",
        Event::Joined(_) => b"joined",
        Event::JoinFailed(_) => b"join-failed",
        Event::Down(_) => b"down",
        Event::Up(_) => b"up",
    }
}

/// The name of the server of an event, and no text for a tick.
pub(crate) fn event_server(region: &Region, event: Event) -> &[u8]
    ensures { result.now ≡ event_server (server_names region.now.servers) event }
{
    match event {
        Event::Tick => b"",
        Event::Drained(server)
        | Event::Refused(server)
        | Event::Joined(server)
        | Event::JoinFailed(server)
        | Event::Down(server)
        | Event::Up(server) => server_name(region, server),
    }
}

/// The word of a cause.
pub(crate) fn cause_text(cause: Cause) -> &'static [u8]
    ensures { result.now ≡ cause_text cause }
{
    match cause {
        Cause::Down => b"down",
        Cause::Waiting => b"waiting",
        Cause::Full => b"full",
        Cause::Unsafe(_) => b"unsafe",
        Cause::Ready => b"ready",
    }
}

/// The reservation that a cause names, and no text where it names none.
pub(crate) fn cause_reservation(requests: &Requests, cause: Cause) -> &[u8]
    ensures { result.now ≡ cause_reservation (reservation_names requests.now.list) cause }
{
    match cause {
        Cause::Unsafe(r) => reservation_name(requests, r),
        Cause::Down | Cause::Waiting | Cause::Full | Cause::Ready => b"",
    }
}
