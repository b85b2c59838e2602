//! The phase of racks, from the region's assignment and the chosen reservations on.
#![tactic(auto)]

mod phases;

pub use phases::rack;
