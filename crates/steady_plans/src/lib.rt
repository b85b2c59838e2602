//! Assignments that no change of one server makes cheaper.
#![tactic(auto)]

mod alike;
mod laws;
mod local;
mod moves;
mod sums;
mod tried;
mod values;

pub use laws::{cost_changes_locally, steady_is_least_nearby};
pub use moves::settle;
