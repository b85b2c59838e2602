use ras_table::{List, Name};

/// What binds a server: who holds it, and whether it is busy and up.
#[derive(Debug, Drop)]
pub struct Binding {
    /// The name of the reservation that holds the server, or None where it is free.
    pub holder: Option<Name>,
    /// Whether something runs on the server.
    pub busy: bool,
    /// Whether the server works.
    pub up: bool,
}

/// The bindings of a region, one for each of its servers, in their order.
#[derive(Debug, Drop)]
pub struct Bindings {
    /// The binding of each server.
    pub of: List<Binding>,
}
