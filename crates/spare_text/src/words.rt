ghost use Rattle.std.specs.Prelude.{◌≡◌};
ghost use Rattle.ras_inventory.specs.RegionRule.{server_names};
ghost use Rattle.ras_requests.specs.RequestsRule.{reservation_names};
ghost use Rattle.spare_text.specs.Lines.{name_at, spare_name, server_of};

use ras_inventory::Region;
use ras_requests::Requests;
use spare_pool::Change;

/// The name of a server, and no text where there is none with this number.
pub(crate) fn server_name(region: &Region, server: u32) -> &[u8]
    ensures { result.now ≡ name_at (server_names region.now.servers) server }
{
    match region.servers.as_slice().get(server as usize) {
        Some(server) => server.name.bytes(),
        None => b"",
    }
}

/// The name of a reservation, and no text where there is none with this number.
pub(crate) fn reservation_name(requests: &Requests, r: u32) -> &[u8]
    ensures { result.now ≡ name_at (reservation_names requests.now.list) r }
{
    match requests.list.as_slice().get(r as usize) {
        Some(reservation) => reservation.name.bytes(),
        None => b"",
    }
}

/// The name of a spare, and no text where there is none.
pub(crate) fn spare_name(region: &Region, spare: Option<u32>) -> &[u8]
    ensures { result.now ≡ spare_name (server_names region.now.servers) spare }
{
    match spare {
        Some(server) => server_name(region, server),
        None => b"",
    }
}

/// The server of a change.
pub(crate) fn server_of(change: Change) -> u32
    ensures { result ≡ server_of change }
{
    match change {
        Change::Fail(server) | Change::Repair(server) => server,
    }
}
