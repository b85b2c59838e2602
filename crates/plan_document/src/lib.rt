//! Plan documents: JSON texts that state a plan and what shows how good it is.
//!
//! A document names the protection of each reservation: `write_document` writes format 2, which has them, and of format 1
//! each reservation reads as protected against the loss of a switchboard.
//!
//! `read_document` gives the document that bytes are, or the first fault with its place. `write_document` gives the text
//! of a document, and what was written is read again.
#![tactic(auto)]

mod document;
mod fault;
mod node;
mod numbers;
mod part;
mod protections;
mod shape;
mod write;

pub use document::{Answer, Document, read_document};
pub use fault::{DocFault, DocPlace, DocWhy};
pub use part::{Part, Planned, RackPart};
pub use shape::{Cut, Fractions, Pair, Shape, Weights};
pub use write::write_document;

#[cfg(test)]
mod tests;
