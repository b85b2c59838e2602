//! Sets of reservations that clash.
#![tactic(auto)]

mod answer;
mod copies;
mod cores;
mod keep;
mod laws;
mod sets;
mod steps;
#[cfg(test)]
mod tests;
mod tries;

pub use answer::CoreAnswer;
pub use cores::core;
pub use keep::keep_only;
pub use laws::{
    enough_is_decided, fewer_can_be_met, fitting_has_memory_faults, kept_joins, kept_stays_allowed,
    met_or_not,
};
