//! Points that show why splits were made.
ghost use Rattle.std.specs.Prelude.{◌≡◌, ◌<◌, ◌≤◌, IfOk, OnOk, None, [], length};
ghost use Rattle.ip_model.specs.Points.{IsBoxOf};
ghost use Rattle.bound_certificate.specs.Pending.{places_after, NodeFits};
ghost use Rattle.bound_certificate.specs.Trees.{fault_of_tree};
ghost use Rattle.bound_certificate.specs.Shown.{first_unshown, node_shows, point_shows, strictly_between};

use crate::tree::{Node, Tree};
use crate::walk::{empty_places, high_child, low_child};
use ip_model::{Bounds, Point, Program, full_box, point_ok, point_value_up};
use std::alloc::{AllocError, Global};

/// Whether a point lies strictly between `at` and `at + 1` in a column.
fn strictly_between(point: &Point, column: usize, at: u32) -> bool
    requires whole { column < length point.now.whole }
    requires part { column < length point.now.part }
    ensures { result ≡ strictly_between point.now column at }
{
    let den = u128::from(point.den);
    let at = u128::from(at);
    let number = u128::from(point.whole.as_slice()[column]) * den
        + u128::from(point.part.as_slice()[column]);
    den * at < number && number < den * (at + 1)
}

/// Whether a point of a box tells why that box was split in a column at `at`, where the tree's bound is `lower`.
fn point_shows(
    program: &Program,
    bounds: &Bounds,
    column: usize,
    at: u32,
    lower: u64,
    point: &Point,
) -> bool
    requires is_box { IsBoxOf program.now bounds.now }
    requires column { column < length program.now.columns }
    ensures { result ≡ point_shows program.now bounds.now column at lower point.now }
{
    if !point_ok(program, bounds, point) {
        return false;
    }
    strictly_between(point, column, at) && point_value_up(program, point) <= lower
}

/// Whether a node shows no point, or one that tells why it was split.
fn node_shows(program: &Program, lower: u64, bounds: &Bounds, node: &Node, count: usize) -> bool
    requires is_box { IsBoxOf program.now bounds.now }
    requires fits { NodeFits program.now count bounds.now node.now }
    ensures { result ≡ node_shows program.now lower bounds.now node.now }
{
    match node {
        Node::Split {
            column,
            at,
            shown: Some(point),
            ..
        } => { point_shows(program, bounds, *column as usize, *at, lower, point) }
        _ => true,
    }
}

/// Puts the boxes of a node's children into their places.
fn put_children(
    alloc: Global,
    program: &Program,
    node: &Node,
    bounds: &Bounds,
    places: &mut Vec<Option<Bounds>>,
) -> Result<(), AllocError>
    requires fits { NodeFits program.now (length places.old.items) bounds.now node.now }
    requires is_box { IsBoxOf program.now bounds.now }
    ensures { OnOk result (places.new.items ≡ places_after node.now bounds.now places.old.items) }
{
    if let Node::Split {
        column,
        at,
        low,
        high,
        ..
    } = node
    {
        let below = low_child(alloc, bounds, *column as usize, *at)?;
        let above = high_child(alloc, bounds, *column as usize, *at)?;
        places[*low as usize] = Some(below);
        places[*high as usize] = Some(above);
    }
    Ok(())
}

/// The first split of a tree without fault that shows a point which does not tell why it was made: one that is not in the
/// relaxation of the node's box, does not lie strictly between `at` and `at + 1` in the split's column, or has a value
/// that, rounded up, is above `lower`. The only fault is want of memory.
pub fn first_unshown(
    alloc: Global,
    program: &Program,
    tree: &Tree,
    lower: u64,
) -> Result<Option<u32>, AllocError>
    requires { fault_of_tree program.now tree.now.nodes ≡ None }
    ensures { IfOk result (λ found. found ≡ first_unshown program.now lower [] tree.now.nodes) }
{
    let nodes = tree.nodes.as_slice();
    let mut places = empty_places(alloc, nodes.len())?;
    places[0] = Some(full_box(alloc, program)?);
    for (i, node) in nodes.iter().enumerate() {
        let Some(bounds) = places[i].take() else {
            unreachable!();
        };
        if !node_shows(program, lower, &bounds, node, nodes.len()) {
            return Ok(Some(i as u32));
        }
        put_children(alloc, program, node, &bounds, &mut places)?;
    }
    Ok(None)
}
