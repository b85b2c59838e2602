use plan_model::Holder;
use ras_table::List;

/// Servers of one type on one switchboard, held alike. The rack is there in the rack phase.
#[derive(Debug, Drop)]
pub struct Class {
    pub kind: u32,
    pub rack: Option<u32>,
    pub board: u32,
    pub holder: Holder,
    pub busy: bool,
    /// The numbers of the servers, in rising order.
    pub members: List<u32>,
}

/// The classes of the movable servers, in the order of their first members.
#[derive(Debug, Drop)]
pub struct Classes {
    pub list: List<Class>,
}
