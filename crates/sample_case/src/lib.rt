//! The case of a sample region, whose files are proved to be valid.
#![tactic(auto)]

mod cases;
mod laws;
mod read;

pub use cases::{SampleCase, sample_case};
pub use laws::{
    bindings_are_valid, inventory_is_valid, requests_are_valid, sample_fits, size_is_kept,
};

#[cfg(test)]
mod tests;
