//! Where files come from and where texts go: shelves and sinks, that tell what they hold and count their faults.
#![tactic(auto)]

mod files;
mod memory;
mod reading;
mod shelf;
mod sink;
mod source;
#[cfg(test)]
mod tests;
mod writer;

pub use files::FileShelf;
pub use memory::{File, MemoryShelf, MemorySink, Stop};
pub use shelf::{Shelf, ShelfFault};
pub use sink::{Sink, SinkFailed};
pub use writer::WriteSink;
