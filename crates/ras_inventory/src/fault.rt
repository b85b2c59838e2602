use ras_table::RowFault;
use thiserror::Error;

/// Why a line of an inventory is refused. Of several faults of one line the first in this order is told.
#[derive(Debug, Drop, Error)]
pub enum RegionWhy {
    /// The first line is not the head.
    #[error("head")]
    Head,
    /// A line has another number of columns, or a column that is out of its kind.
    #[error("{0}")]
    Row(RowFault),
    /// The server's name stood before.
    #[error("twice")]
    Twice,
    /// The rack stood before on another switchboard.
    #[error("rack moved")]
    RackMoved,
    /// The switchboard stood before in another datacenter.
    #[error("switchboard moved")]
    BoardMoved,
    /// It is the 20,001st server, or names the 65th switchboard.
    #[error("many")]
    Many,
}

/// Why an inventory is refused.
#[derive(Debug, Drop, Error)]
pub enum RegionFault {
    /// The first line with a fault, counted from 1, and its first fault.
    #[error("line {line}: {why}")]
    At { line: u32, why: RegionWhy },
    /// Memory ran out.
    #[error("out of memory")]
    Memory,
}

/// Why a line of bindings is refused. Of several faults of one line the first in this order is told.
#[derive(Debug, Drop, Error)]
pub enum BindingsWhy {
    /// The first line is not the head.
    #[error("head")]
    Head,
    /// A line has another number of columns, or a column that is out of its kind.
    #[error("{0}")]
    Row(RowFault),
    /// The server is none of the region.
    #[error("unknown")]
    Unknown,
    /// The server stood before.
    #[error("twice")]
    Twice,
}

/// Why bindings are refused.
#[derive(Debug, Drop, Error)]
pub enum BindingsFault {
    /// The first line with a fault, counted from 1, and its first fault.
    #[error("line {line}: {why}")]
    At { line: u32, why: BindingsWhy },
    /// Memory ran out.
    #[error("out of memory")]
    Memory,
}
