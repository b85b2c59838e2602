//! Why the program of a phase is not made.

use std::alloc::AllocError;
use thiserror::Error;

/// Why the program of a phase is not made.
#[derive(Debug, Drop, Error)]
pub enum SizeFault {
    /// It has so many columns, more than 2,048.
    #[error("{0} columns")]
    Columns(u32),
    /// Its columns fit, and it has so many rows, more than 2,048.
    #[error("{0} rows")]
    Rows(u32),
    /// For want of memory.
    #[error("out of memory")]
    Memory,
}

impl From<AllocError> for SizeFault {
    ghost use Rattle.std.specs.Prelude.{◌≡◌};
    ghost use Rattle.program_rows.specs.declared.fault.SizeFault.TheVariants.{Memory};

    ghost from_gives = { λ _ fault. fault ≡ Memory };

    fn from(_fault: AllocError) -> SizeFault {
        SizeFault::Memory
    }
}
