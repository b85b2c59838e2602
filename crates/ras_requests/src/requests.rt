use ras_table::{List, Name};

/// What the moves of an up server cost, each 0 to 10,000.
#[derive(Clone, Copy, Debug)]
pub struct Moves {
    /// Giving a server that no reservation of the requests holds to a reservation.
    pub take: u32,
    /// Taking a server that is not busy from the reservation that holds it.
    pub idle: u32,
    /// Taking a busy server from the reservation that holds it.
    pub busy: u32,
}

/// What a server of one type is worth to a reservation.
#[derive(Debug, Drop)]
pub struct Value {
    /// The name of the type.
    pub kind: Name,
    /// The units of one server of the type, 0 to 1,000.
    pub units: u32,
}

/// A wish for units in one datacenter.
#[derive(Debug, Drop)]
pub struct Near {
    /// The name of the datacenter.
    pub center: Name,
    /// The units that are wanted there, 0 to 10,000,000.
    pub least: u32,
    /// What each unit that is missing there costs, 0 to 10,000.
    pub weight: u32,
}

/// What a reservation has to survive.
#[derive(Clone, Copy, Debug, PartialEq, Eq)]
pub enum Protection {
    /// Nothing.
    Total,
    /// The loss of any one switchboard.
    Board,
    /// The loss of any one datacenter.
    Center,
}

/// A reservation of the requests.
#[derive(Debug, Drop)]
pub struct Reservation {
    /// The name, which no other reservation of the requests has.
    pub name: Name,
    /// The units that are needed, also after any one loss that the protection names, 0 to 10,000,000.
    pub need: u32,
    /// The values of types, at most 1,000, each type once. Another type is worth nothing.
    pub values: List<Value>,
    /// What each unit on the switchboard with the most units costs, 0 to 10,000.
    pub buffer_weight: u32,
    /// The units on one switchboard that cost nothing, 0 to 10,000,000.
    pub spread_limit: u32,
    /// What each unit on one switchboard beyond that limit costs, 0 to 10,000.
    pub spread_weight: u32,
    /// The units on one rack that cost nothing, 0 to 10,000,000.
    pub rack_limit: u32,
    /// What each unit on one rack beyond that limit costs, 0 to 10,000.
    pub rack_weight: u32,
    /// The wishes for units in datacenters, at most 16.
    pub near: List<Near>,
    /// What it has to survive.
    pub protection: Protection,
}
