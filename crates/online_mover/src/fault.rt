use ras_table::RowFault;
use thiserror::Error;

/// Why a line of a file of events is refused.
#[derive(Debug, Drop, Error)]
pub enum EventsWhy {
    /// The first record is not the head.
    #[error("head")]
    Head,
    /// The record is no row of a time, a name and a name or nothing.
    #[error("{0}")]
    Row(RowFault),
    /// The event is none of the words.
    #[error("word")]
    Word,
    /// A tick names a server, or another event names none that the region has.
    #[error("unknown")]
    Unknown,
    /// The time is less than that of the event before.
    #[error("order")]
    Order,
    /// It is the 100,001st event.
    #[error("many")]
    Many,
}

/// Why a file of events is refused.
#[derive(Debug, Drop, Error)]
pub enum EventsFault {
    /// The first record that is refused, by its number from 1.
    #[error("line {line}: {why}")]
    At { line: u32, why: EventsWhy },
    /// There was too little memory.
    #[error("out of memory")]
    Memory,
}
