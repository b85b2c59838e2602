//! Boxes whose counts are fixed: the least helpers, and multipliers that close the box exactly.
#![tactic(auto)]

mod boxes;
mod rows;
mod settle;
#[cfg(test)]
mod tests;

pub use boxes::{Closed, close};
pub use settle::{Settled, settle_helpers};
