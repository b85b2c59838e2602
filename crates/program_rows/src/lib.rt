//! The integer program of a phase.
#![tactic(auto)]

mod base;
mod builds;
mod choice;
mod columns;
mod fault;
mod laws;
mod lines;
mod phases;
mod reach;
mod servers;
mod sizes;
mod sums;
mod values;

pub use builds::{ROW_KINDS, build};
pub use choice::choose;
pub use fault::SizeFault;
pub use laws::{racks_chosen, six_servers_in_classes, six_servers_single};
pub use phases::Phase;
pub use servers::{movable, movables};
