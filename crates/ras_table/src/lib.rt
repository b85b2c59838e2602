//! Lists, names, words, numbered names, and the rows of a file of comma separated values.
#![tactic(auto)]

mod list;
mod name;
mod names;
mod records;
mod rows;
mod word;

pub use list::List;
pub use name::{Name, NameFault};
pub use names::Names;
pub use records::{Record, read_records, without_mark};
pub use rows::{Cell, Kind, Row, RowFault, Schema, read_head, read_row};
pub use word::Word;

#[cfg(test)]
mod tests;
