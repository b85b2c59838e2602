//! The solver of both phases, and the document of a case that it makes.
#![tactic(auto)]

mod planner;
mod solving;

pub use planner::ExactPlanner;
pub use solving::solve;
