use ras_table::Name;

/// A server, with the numbers of its type, rack, switchboard and datacenter.
#[derive(Debug, Drop)]
pub struct Server {
    /// The name, which no other server of the region has.
    pub name: Name,
    /// The number of its type among the types of the region.
    pub kind: u32,
    /// The number of its rack among the racks of the region.
    pub rack: u32,
    /// The number of its switchboard among the switchboards of the region.
    pub board: u32,
    /// The number of its datacenter among the datacenters of the region.
    pub center: u32,
}
