//! Nodes as they stand in a document, before the limits are tested.

use ras_table::List;

/// A row and the numerator of its multiplier.
#[derive(Clone, Copy, Debug)]
pub struct Pair {
    /// The number of the row.
    pub row: u64,
    /// The numerator of its multiplier.
    pub num: u64,
}

/// The multipliers of a leaf.
#[derive(Debug, Drop)]
pub struct Weights {
    /// The denominator of all.
    pub den: u64,
    /// The rows with a multiplier that is not 0, rising.
    pub pairs: List<Pair>,
}

/// A shown point.
#[derive(Debug, Drop)]
pub struct Fractions {
    /// The denominator of all parts.
    pub den: u64,
    /// The whole number of each column.
    pub whole: List<u64>,
    /// The numerator of the part that is left of each column.
    pub part: List<u64>,
}

/// A split of a node's box in two.
#[derive(Debug, Drop)]
pub struct Cut {
    /// The column in which it is split.
    pub column: u64,
    /// The greatest number of that column in the low half.
    pub at: u64,
    /// The node of the low half.
    pub low: u64,
    /// The node of the high half.
    pub high: u64,
    /// The point that shows why it was split, where one is shown.
    pub shown: Option<Fractions>,
}

/// A node.
#[derive(Debug, Drop)]
pub enum Shape {
    /// A split.
    Split(Cut),
    /// A leaf whose multipliers give a bound.
    Bound(Weights),
    /// A leaf whose multipliers show that its box is empty.
    Refute(Weights),
}
