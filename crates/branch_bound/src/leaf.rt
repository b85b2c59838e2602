//! Leaves that are open.

use ip_model::Point;

/// How the box of a leaf is to be split: in a column at `at`, and the point that tells why, if there is one.
#[derive(Debug, Drop)]
pub struct Cut {
    pub column: u32,
    pub at: u32,
    pub shown: Option<Point>,
}

/// A leaf that is not refuted: its bound, and how it is to be split. One without a cut need not be split, since a whole point is known
/// whose value is at most the bound. Its box is found in the tree when it is split.
#[derive(Debug, Drop)]
pub struct OpenLeaf {
    pub bound: u64,
    pub cut: Option<Cut>,
}

/// An open leaf with its node's number.
#[derive(Debug, Drop)]
pub struct NumberedLeaf {
    pub node: u32,
    pub leaf: OpenLeaf,
}
