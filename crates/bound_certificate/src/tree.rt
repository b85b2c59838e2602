//! Trees of splits.
ghost use Rattle.std.specs.Prelude.{◌<◌, length};

use crate::multipliers::Multipliers;
use ip_model::Point;
use ras_table::List;
use std::alloc::AllocError;
use thiserror::Error;

/// A node of a tree.
#[derive(Debug, Drop)]
pub enum Node {
    /// The column is at most `at` in the box of node `low`, and at least `at + 1` in that of node `high`.
    /// The shown point tells why the node was split.
    Split {
        column: u32,
        at: u32,
        low: u32,
        high: u32,
        shown: Option<Point>,
    },
    /// A leaf whose multipliers bound its box from below.
    Bound(Multipliers),
    /// A leaf whose multipliers refute its box.
    Refute(Multipliers),
}

/// A tree of splits with at least one node. Node 0 has the full box.
#[derive(Debug, Drop)]
pub struct Tree {
    pub nodes: List<Node>,
    pub ghost has_root: { 0 < length nodes },
}

/// The least bound over the leaves that are not refuted.
#[derive(Clone, Copy, Debug, PartialEq)]
pub enum Least {
    /// The least leaf bound.
    At(u64),
    /// All leaves are refuted, so the program has no whole point.
    AllRefuted,
}

/// A rule of trees that a node can break, in the order in which they are tested.
#[derive(Clone, Copy, Debug, PartialEq)]
pub enum TreeWhy {
    /// It is not the first, and no earlier split names it.
    Orphan,
    /// The column is not in the program.
    Column,
    /// The box cannot be split there: not `low <= at < high`.
    At,
    /// A child's number is not above the node's or is no node's, both children are one node, or a child was named before.
    Child,
    /// A row with a multiplier is not in the program.
    Row,
    /// The multipliers of a refuted leaf do not refute its box.
    Weak,
}

/// Why a tree has no bound.
#[derive(Clone, Copy, Debug, Error)]
pub enum LowerFault {
    /// The first node that breaks a rule, and the first rule that it breaks.
    #[error("node {node}: {why:?}")]
    Tree { node: u32, why: TreeWhy },
    /// Want of memory.
    #[error("out of memory")]
    Memory,
}

impl From<AllocError> for LowerFault {
    ghost use Rattle.std.specs.Prelude.{◌≡◌};
    ghost use Rattle.bound_certificate.specs.declared.tree.LowerFault.TheVariants.{Memory};

    ghost from_gives = { λ _ fault. fault ≡ Memory };

    fn from(_fault: AllocError) -> LowerFault {
        LowerFault::Memory
    }
}
