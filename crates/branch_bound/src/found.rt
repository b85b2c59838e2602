//! What a search finds.

use bound_certificate::Tree;
use ras_table::List;

/// A whole point of a program, with its value.
#[derive(Debug, Drop)]
pub struct Best {
    pub point: List<u32>,
    pub value: u64,
}

/// What a search finds. `lower` is the tree's bound, which is at most the value of each whole point.
#[derive(Debug, Drop)]
pub enum Found {
    /// A whole point whose value is above `lower` by at most the gap.
    Plan {
        point: List<u32>,
        value: u64,
        lower: u64,
        tree: Tree,
    },
    /// The program has no whole point: all leaves of the tree are refuted.
    Empty {
        tree: Tree,
    },
    /// The budget has no room for a further split. The best whole point that is known, if one is, is above `lower` by more than the gap.
    Limit {
        best: Option<Best>,
        lower: u64,
        tree: Tree,
    },
}
