//! Rounds: the case after a round of the mover, the class table that is kept across rounds, the document of a round, and the
//! events of rounds by their script.
#![tactic(auto)]

mod after;
mod changes;
mod entries;
mod fault;
mod laws;
mod mend;
mod places;
mod script;
mod solving;
mod table;

pub use after::case_after;
pub use entries::Entry;
pub use fault::ScriptFault;
pub use laws::{case_after_is_one, mend_is_grouped, mend_is_right, table_is_one};
pub use script::read_script;
pub use solving::round;
pub use table::Table;

#[cfg(test)]
mod carries;
#[cfg(test)]
mod tests;
