//! Better whole points of a program, from a point of fractions or from counts, by moves of single servers.
#![tactic(auto)]

mod effects;
mod groups;
mod layout;
mod moves;
mod offer;
mod rounding;
mod state;
#[cfg(test)]
mod tests;

pub use layout::Layout;
pub use offer::{Incumbent, improve, improve_by_pairs, improve_rounded};
