//! Trees whose splits show no points.
ghost use Rattle.std.specs.Prelude.{◌≡◌, length, map};
ghost use Rattle.plan_checker.specs.Points.{without_point};

use bound_certificate::{Node, Tree};
use ras_table::List;

/// Forgets the point that a node shows.
fn hide_point(node: &mut Node)
    ensures { node.new ≡ without_point node.old }
{
    match node {
        Node::Split { shown, .. } => *shown = None,
        Node::Bound(_) => {}
        Node::Refute(_) => {}
    }
}

/// Forgets the points that nodes show.
fn hide_points(nodes: &mut [Node])
    ensures { nodes.new ≡ map without_point nodes.old }
{
    for node in nodes.iter_mut() {
        hide_point(node);
    }
}

/// The tree without the points that its splits show.
pub(crate) fn without_points(tree: Tree) -> Tree
    ensures { result.nodes ≡ map without_point tree.nodes }
{
    let Tree { nodes } = tree;
    let mut items = nodes.into_vec();
    hide_points(items.as_mut_slice());
    Tree {
        nodes: List::from_vec(items),
    }
}
