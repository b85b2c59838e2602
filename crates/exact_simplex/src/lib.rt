//! The relaxation of a program, by the written simplex method.
#![tactic(auto)]

mod advance;
mod calls;
mod commons;
mod laws;
mod lows;
mod merge;
mod multiples;
mod numbers;
mod other_box;
mod picks;
mod point;
mod relaxed;
mod row_weights;
mod rows;
mod run;
mod shifts;
mod start;
mod state;
mod table;
mod tableau_row;
#[cfg(test)]
mod tests;

pub use laws::{
    empty_is_not_licensed, last_is_one, least_is_not_licensed, pivots_raise, pivots_raise_from,
};
pub use other_box::rebound;
pub use relaxed::Relaxed;
pub use run::{relax, relax_from};
pub use table::Tableau;
pub use tableau_row::Kept;
