//! Where a tableau stands in the written method.

/// A tableau is over, or it has a pivot's row with a first candidate.
#[derive(Clone, Copy)]
pub enum State {
    /// Over: no row has a value below 0.
    Least,
    /// Over: this row has a value below 0 and no candidate.
    Empty { row: u32 },
    /// Not over.
    Open { row: u32, first: u32 },
}

/// A pivot was made, or it does not fit.
#[derive(Clone, Copy)]
pub enum Advance {
    /// The column of this unit was the pivot's.
    Made { unit: u32 },
    /// The pivot in this column does not fit, or the choice of the column where it is None.
    Wide { column: Option<u32> },
}
