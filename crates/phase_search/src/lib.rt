//! One phase, solved: its program is searched, and the best point becomes an assignment of single servers.
#![tactic(auto)]

mod first;
mod plans;
mod points;
mod solving;

pub use solving::solve;
