//! Servers that may take each other's place, in classes.
#![tactic(auto)]

mod grouping;
mod groups;
mod keys;

pub use grouping::group;
pub use groups::{Class, Classes};

#[cfg(test)]
mod tests;
