//! A pool of servers: where one fails, a spare takes its place at once. And the reader of failures.
#![tactic(auto)]

mod choice;
mod failure;
mod failures;
mod fault;
mod firsts;
mod laws;
mod pool;
mod reads;
mod standings;
mod units;

pub use failure::Failure;
pub use failures::read_failures;
pub use fault::{FailuresFault, FailuresWhy};
pub use laws::{
    every_run, others_keep_units, replaced_keeps_units, short_is_missing, step_is_one,
    step_keeps_rule,
};
pub use pool::Pool;
pub use standings::{Change, Outcome};

#[cfg(test)]
mod tests;
