//! Branch and bound: the best whole point of a program, with a tree that bounds the program from below.
#![tactic(auto)]

mod best_first;
mod children;
mod columns;
mod explore;
mod found;
mod frontier;
mod gains;
#[cfg(test)]
mod gains_tests;
mod heuristics;
mod leaf;
mod make;
mod origin;
mod relaxing;
mod sides;
mod state;
#[cfg(test)]
mod tests;

pub use best_first::search;
pub use found::{Best, Found};
