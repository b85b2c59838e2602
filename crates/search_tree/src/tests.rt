//! A tree of one split.
ghost use Rattle.std.specs.Prelude.{IfOk, IsSome, Some};
ghost use Rattle.search_tree.specs.Leaves.{multipliers_of};

use crate::growth::SearchTree;
use bound_certificate::{Multipliers, Node};
use ras_table::List;
use std::alloc::{AllocError, Global};
use std::test::Fail;

/// A leaf with no multiplier.
fn leaf(alloc: Global) -> Result<Node, AllocError>
    ensures { IfOk result (λ node. IsSome (multipliers_of (Some node))) }
{
    let tops = List::new(alloc, 0)?;
    Ok(Node::Bound(Multipliers { den: 1, tops }))
}

/// A leaf that is split in column 2 at 5.
fn split_once(alloc: Global) -> Result<SearchTree, AllocError> {
    let first = leaf(alloc)?;
    let mut tree = SearchTree::new(alloc, first)?;
    let low = leaf(alloc)?;
    let high = leaf(alloc)?;
    tree.split(0, 2, 5, None, low, high)?;
    Ok(tree)
}

#[test]
fn a_split_has_two_leaves(rt: HostRuntime) -> Result<(), Fail> {
    let tree = split_once(rt.alloc())?;
    assert_eq!(rt; tree.len(), 3);
    assert!(&rt; tree.multipliers(0).is_none());
    assert!(&rt; tree.multipliers(1).is_some());
    assert!(&rt; tree.multipliers(2).is_some());
    assert!(&rt; tree.multipliers(3).is_none());
    let nodes = tree.into_tree().nodes;
    assert!(&rt;
        matches!(
            nodes.get(0),
            Some(Node::Split {
                column: 2,
                at: 5,
                low: 1,
                high: 2,
                shown: None
            })
        )
    );
    Ok(())
}
