ghost use Rattle.std.specs.Prelude.{IsTrue};
ghost use Rattle.plan_model.specs.CaseRule.{case_rule};

use ras_requests::{Moves, Protection};
use ras_table::List;

/// Who holds a server.
#[derive(Clone, Copy, Debug, PartialEq, Eq, Hash)]
pub enum Holder {
    /// Nobody.
    Free,
    /// The reservation of the requests with this number.
    Held(u32),
    /// A reservation that the requests do not name.
    Gone,
}

/// A server: its type, where it stands, who holds it, and whether it is busy and up.
#[derive(Clone, Copy, Debug)]
pub struct Place {
    /// The number of its type.
    pub kind: u32,
    /// The number of its rack, which is on one switchboard.
    pub rack: u32,
    /// The number of its switchboard, which is in one datacenter.
    pub board: u32,
    /// The number of its datacenter.
    pub center: u32,
    /// Who holds it.
    pub holder: Holder,
    /// Whether something runs on it.
    pub busy: bool,
    /// Whether it works.
    pub up: bool,
}

/// A wish for units in one datacenter.
#[derive(Clone, Copy, Debug)]
pub struct Goal {
    /// The number of the datacenter, or None where the inventory lacks it.
    pub center: Option<u32>,
    /// The units that are wanted there, 0 to 10,000,000.
    pub least: u32,
    /// What each unit that is missing there costs, 0 to 10,000.
    pub weight: u32,
}

/// A reservation.
#[derive(Debug, Drop)]
pub struct Want {
    /// The units that are needed, also after any one loss that the protection names, 0 to 10,000,000.
    pub need: u32,
    /// The units of one server of each type, 0 to 1,000, by the number of the type.
    pub values: List<u32>,
    /// What each unit on the switchboard with the most units costs, 0 to 10,000.
    pub buffer_weight: u32,
    /// The units on one switchboard that cost nothing, 0 to 10,000,000.
    pub spread_limit: u32,
    /// What each unit on one switchboard beyond that limit costs, 0 to 10,000.
    pub spread_weight: u32,
    /// The units on one rack that cost nothing, 0 to 10,000,000.
    pub rack_limit: u32,
    /// What each unit on one rack beyond that limit costs, 0 to 10,000.
    pub rack_weight: u32,
    /// The wishes for units in datacenters, at most 16.
    pub near: List<Goal>,
    /// What it has to survive.
    pub protection: Protection,
}

/// What a plan is made for: at most 20,000 servers, 64 switchboards and 64 reservations. Each number of a type, rack,
/// switchboard, datacenter or reservation is that of one that is there.
#[derive(Debug, Drop)]
pub struct Case {
    /// The servers, by number.
    pub places: List<Place>,
    /// How many types there are.
    pub kinds: u32,
    /// How many racks there are.
    pub racks: u32,
    /// How many switchboards there are.
    pub boards: u32,
    /// How many datacenters there are.
    pub centers: u32,
    /// What moves cost.
    pub moves: Moves,
    /// The reservations, by number.
    pub wants: List<Want>,
    pub ghost kept: { IsTrue (case_rule places kinds racks boards centers moves wants) },
}

/// Whether each movable server is a class of its own, or those that are alike share one.
#[derive(Clone, Copy, Debug, PartialEq, Eq)]
pub enum Grouping {
    /// Each movable server is a class of its own.
    Single,
    /// Movable servers that agree in type, switchboard, holder and busy flag share a class.
    Class,
}

/// What each server gets.
#[derive(Debug, Drop)]
pub struct Assignment {
    /// For each server the number of the reservation that it gets, or None.
    pub of: List<Option<u32>>,
}
