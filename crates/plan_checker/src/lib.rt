//! The verdict on a document: whether its plan is allowed, its numbers are right and its certificates hold; and what a document
//! that was solved for a case keeps, with the trait of those that solve.
#![tactic(auto)]

mod budgets;
mod certificates;
mod chosen;
mod documents;
mod fixed;
mod laws;
mod lists;
mod planner;
mod plans;
mod programs;
mod protections;
mod racks;
mod solving;
mod targets;
mod verdict;

pub use documents::check;
pub use laws::{
    no_reason_keeps_promises, no_reason_means_accepted, target_is_allowed, written_has_shape,
};
pub use planner::Planner;
pub use programs::phase_classes;
pub use protections::case_protections;
pub use solving::solve_case;
pub use targets::target_of;
pub use verdict::{PhaseName, Reason, Verdict};
