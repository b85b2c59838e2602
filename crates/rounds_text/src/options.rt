//! What is asked of rounds.

/// What is asked of each round.
#[derive(Clone, Copy, Debug)]
pub struct RoundOptions {
    /// The wanted gap, 0 to 1,000,000,000,000.
    pub gap: u64,
    /// The most nodes of one phase's tree, 1 to 20,000.
    pub nodes: u32,
    /// The most reservations of the rack phase, 0 to 64.
    pub racks: u32,
    /// The most servers in flight, 1 to 64.
    pub at_once: u32,
}
