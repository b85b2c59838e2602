//! The text of a run of the spare pool over failures: what each of them led to, and totals.
#![tactic(auto)]

mod laws;
mod lines;
mod runs;
mod words;

pub use laws::spare_text_is_one;
pub use runs::spare_text;
