//! The region of an inventory file, and the bindings of its servers.
#![tactic(auto)]

mod bind;
mod bindings;
mod bound;
mod cells;
mod fault;
mod homes;
mod labels;
mod line;
mod lines;
mod read;
mod region;
mod register;
mod rules;
mod server;

pub use bind::read_bindings;
pub use bindings::{Binding, Bindings};
pub use fault::{BindingsFault, BindingsWhy, RegionFault, RegionWhy};
pub use read::read_region;
pub use region::Region;
pub use server::Server;

#[cfg(test)]
mod tests;
