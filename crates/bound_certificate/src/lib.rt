//! Certificates of lower bounds.
#![tactic(auto)]

mod leaf;
mod multipliers;
mod reduced;
mod shown;
mod tree;
mod walk;

pub use leaf::{Sums, bound, refutes};
pub use multipliers::{Multipliers, Top};
pub use shown::first_unshown;
pub use tree::{Least, LowerFault, Node, Tree, TreeWhy};
pub use walk::lower;
