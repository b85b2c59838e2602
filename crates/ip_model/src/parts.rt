//! The parts of a program.

use ras_table::List;

/// What a column counts or measures. A mark other than `Count` makes its column a helper.
#[derive(Clone, Copy, Debug, PartialEq)]
pub enum Mark {
    /// How many servers of a class go to a reservation, or to none.
    Count { class: u32, to: Option<u32> },
    /// The largest number of units of a reservation on one switchboard.
    Share { r: u32 },
    /// The units of a reservation on a switchboard above its spread limit.
    BoardExcess { r: u32, board: u32 },
    /// The units that a near entry of a reservation lacks in its datacenter.
    Shortage { r: u32, entry: u32 },
    /// The units of a reservation on a rack above its rack limit.
    RackExcess { r: u32, rack: u32 },
}

/// A column: what one unit of it costs, the greatest number that it takes, and what it stands for.
#[derive(Clone, Copy, Debug, PartialEq)]
pub struct Column {
    pub cost: u32,
    pub top: u32,
    pub mark: Mark,
}

/// A factor of a column in a row.
#[derive(Clone, Copy, Debug, PartialEq)]
pub struct Term {
    pub column: u32,
    pub factor: i32,
}

/// What a row asks for.
#[derive(Clone, Copy, Debug, PartialEq)]
pub enum RowKind {
    /// At most the servers of a class are placed.
    ClassMost,
    /// At least the servers of a class are placed.
    ClassLeast,
    /// The units of a reservation reach its need.
    Total,
    /// The units of a reservation without one switchboard reach its need.
    Loss,
    /// The share is at least the units on one switchboard.
    LargestShare,
    /// The excess is at least the units on one switchboard above the spread limit.
    BoardOver,
    /// The shortage is at least what the units in a datacenter lack.
    CenterShort,
    /// The excess is at least the units on one rack above the rack limit.
    RackOver,
}

/// A row: the sum of factor times column is at least `least`.
#[derive(Debug, Drop)]
pub struct Line {
    pub terms: List<Term>,
    pub least: i32,
    pub kind: RowKind,
}

/// A box: a low and a high number for each column.
#[derive(Debug, Drop)]
pub struct Bounds {
    pub low: List<u32>,
    pub high: List<u32>,
}
