//! Servers on their way from where they stand to a target, by events and commands, a bounded number at once.
#![tactic(auto)]

mod commands;
mod copies;
mod counting;
mod events;
mod fault;
mod laws;
mod mover;
mod reads;
mod servers;
mod stands;
mod sums;
mod timed;

pub use commands::Commands;
pub use events::read_events;
pub use fault::{EventsFault, EventsWhy};
pub use laws::{
    every_run, none_ready_after_step, ready_is_lawful, replan_keeps_protection, rests_at_target,
    run_keeps_case, step_is_bounded, step_is_one, step_keeps_protection, step_keeps_rule,
    step_keeps_targets,
};
pub use mover::Mover;
pub use stands::{Cause, Command, Event, Stand, Taken};
pub use timed::{Timed, event_in, whole_in};

#[cfg(test)]
mod tests;
