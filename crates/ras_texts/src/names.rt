//! Names by number, as texts.
ghost use Rattle.std.specs.Prelude.{◌≡◌};
ghost use Rattle.ras_texts.specs.Names.{board_name, center_name, rack_name, reservation_name, server_name};

use ras_inventory::Region;
use ras_requests::Requests;

/// The name of a server, or no text where the region has no such server.
pub fn server_name(region: &Region, server: u32) -> &str
    ensures { result.now ≡ server_name region.now server }
{
    match region.servers.get(server) {
        Some(server) => server.name.text(),
        None => "",
    }
}

/// The name of a rack, or no text where the region has no such rack.
pub fn rack_name(region: &Region, rack: u32) -> &str
    ensures { result.now ≡ rack_name region.now rack }
{
    match region.racks.name(rack) {
        Some(name) => name.text(),
        None => "",
    }
}

/// The name of a switchboard, or no text where the region has no such switchboard.
pub fn board_name(region: &Region, board: u32) -> &str
    ensures { result.now ≡ board_name region.now board }
{
    match region.boards.name(board) {
        Some(name) => name.text(),
        None => "",
    }
}

/// The name of a datacenter, or no text where the region has no such datacenter.
pub fn center_name(region: &Region, center: u32) -> &str
    ensures { result.now ≡ center_name region.now center }
{
    match region.centers.name(center) {
        Some(name) => name.text(),
        None => "",
    }
}

/// The name of a reservation, or no text where the requests have no such reservation.
pub fn reservation_name(requests: &Requests, r: u32) -> &str
    ensures { result.now ≡ reservation_name requests.now r }
{
    match requests.list.get(r) {
        Some(reservation) => reservation.name.text(),
        None => "",
    }
}
