//! The phase of the region, from its first plan on.
#![tactic(auto)]

mod phases;

pub use phases::{region, region_with};
