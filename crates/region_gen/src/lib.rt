//! A generator of sample regions: an inventory, requests and bindings that one number and a size determine.
#![tactic(auto)]

mod draft;
mod laws;
mod lines;
mod samples;

pub use laws::twelve_draws;
pub use samples::{SampleFiles, sample};

#[cfg(test)]
mod tests;
