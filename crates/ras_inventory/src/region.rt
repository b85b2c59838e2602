ghost use Rattle.std.specs.Prelude.{◌≡◌, IsTrue, map};
ghost use Rattle.ras_inventory.specs.RegionRule.{region_rule, server_names};

use crate::server::Server;
use ras_table::{List, Names};

/// The servers of a region, and its names by number: at most 20,000 servers and 64 switchboards. Each number of a
/// server names what is there, each rack is on one switchboard and each switchboard in one datacenter, and no two
/// servers have one name.
#[derive(Drop)]
pub struct Region {
    /// The servers, in the order of the inventory.
    pub servers: List<Server>,
    /// The names of the types, by number.
    pub types: Names,
    /// The names of the racks, by number.
    pub racks: Names,
    /// The names of the switchboards, by number.
    pub boards: Names,
    /// The names of the datacenters, by number.
    pub centers: Names,
    /// The names of the servers, by number, to look servers up by.
    pub index: Names,
    pub ghost kept: { IsTrue (region_rule servers types racks boards centers) },
    pub ghost indexed: { index ≡ server_names servers },
}

impl Region {
    ghost use Rattle.ras_table.specs.Names.{number_of};

    /// The number of the server that has these bytes as its name, or None where there is none.
    pub fn find(&self, name: &[u8]) -> Option<u32>
        ensures { result ≡ number_of (server_names self.now.servers) name.now }
    {
        self.index.find(name)
    }
}
