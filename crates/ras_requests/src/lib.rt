//! The requests of a file.
#![tactic(auto)]

mod all;
mod draft;
mod fault;
mod limits;
mod members;
mod protection;
mod read;
mod requests;

pub use all::Requests;
pub use fault::{RequestsFault, RequestsWhy};
pub use protection::{protection_of_text, protection_text};
pub use read::read_requests;
pub use requests::{Moves, Near, Protection, Reservation, Value};

#[cfg(test)]
mod tests;
