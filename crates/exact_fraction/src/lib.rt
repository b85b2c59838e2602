//! Checked fractions of 128 bits.
//!
//! A [`Fraction`] is a number in lowest terms whose numerator and denominator have a magnitude of at most 2^126.
//! `add`, `sub`, `mul` and `div` answer the exact number, or None exactly where one of the written intermediates passes 2^126.
//! [`fits!`] chains such operations. No call takes memory.
#![tactic(auto)]

mod compare;
mod euclid;
mod fraction;
mod halves;
mod laws;
mod macros;
mod small;
#[cfg(test)]
mod tests;

pub use euclid::gcd;
pub use fraction::{Fraction, whole};
pub use laws::{order_goes_by_sign, order_is_total, products_agree, sums_agree, sums_commute};
