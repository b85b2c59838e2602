//! The text of a run of the mover over events: commands, events that were not lawful, the causes that stand at the end, and
//! totals.
#![tactic(auto)]

mod laws;
mod lines;
mod runs;
mod words;

pub use laws::{move_text_end, move_text_is_one};
pub use runs::{move_text, run_text};
