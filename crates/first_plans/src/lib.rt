//! The first plan of a region: what the bound servers keep, and one server after the other for what each reservation lacks.
#![tactic(auto)]

mod filling;
mod first;
mod kept;
mod laws;
mod ranks;
mod reads;
mod sums;
mod takes;

pub use first::first_plan;
pub use laws::{first_plans_by_protection, first_plans_of_eight, more_takes_change_nothing};

#[cfg(test)]
mod tests;
