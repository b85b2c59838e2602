//! Trees that grow by splits of leaves.
#![tactic(auto)]

mod growth;
mod laws;
#[cfg(test)]
mod tests;

pub use growth::SearchTree;
pub use laws::{sides_bound_no_less, sides_part_ways};
