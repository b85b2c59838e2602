//! Rounds: the allocator is run again and again on the bindings that the mover left. The text of each round is made when the
//! round is run: a line with its number, the document, and the moves to its target.
#![tactic(auto)]

mod done;
mod events;
mod laws;
mod lines;
mod moves;
mod options;
mod run;

pub use done::Round;
pub use laws::rounds_lead_on;
pub use options::RoundOptions;
pub use run::Rounds;
