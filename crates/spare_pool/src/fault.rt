use ras_table::RowFault;
use thiserror::Error;

/// Why a line of a file of failures is refused.
#[derive(Debug, Drop, Error)]
pub enum FailuresWhy {
    /// The first record is not the head.
    #[error("head")]
    Head,
    /// The record is no row of a time and two names.
    #[error("{0}")]
    Row(RowFault),
    /// The event is none of the words.
    #[error("word")]
    Word,
    /// The region has no server of that name.
    #[error("unknown")]
    Unknown,
    /// The time is less than that of the failure before.
    #[error("order")]
    Order,
    /// It is the 100,001st failure.
    #[error("many")]
    Many,
}

/// Why a file of failures is refused.
#[derive(Debug, Drop, Error)]
pub enum FailuresFault {
    /// The first record that is refused, by its number from 1.
    #[error("line {line}: {why}")]
    At { line: u32, why: FailuresWhy },
    /// There was too little memory.
    #[error("out of memory")]
    Memory,
}
