//! The bound of a tree, by a walk over its nodes.
ghost use Rattle.std.specs.Prelude.{◌≡◌, ℕ, ◌+◌, ◌-◌, ◌^◌, ◌<◌, ◌≤◌, ◌↔◌, IfOk, OnOk, IsTrue, IsNone, List, length, slice_set, slice_index_or};
ghost use Rattle.ip_model.specs.Points.{IsBoxOf, IsWholePoint, value_of};
ghost use Rattle.bound_certificate.specs.Pending.{nodes_before, places_after, HoldsFrom, NodeFits};
ghost use Rattle.bound_certificate.specs.Trees.{box_of, broken_rule, broken_split, child_fits, high_side, lesser_of, low_side, node_bound, rows_fit, IsLower, LiesUnder};

use crate::leaf::{Sums, bound, refutes};
use crate::multipliers::Multipliers;
use crate::tree::{Least, LowerFault, Node, Tree, TreeWhy};
use ip_model::{Bounds, Program, full_box};
use ras_table::List;
use std::alloc::{AllocError, Global};

/// An empty place for each node.
pub(crate) fn empty_places(alloc: Global, count: usize) -> Result<Vec<Option<Bounds>>, AllocError>
    ensures size { IfOk result (λ places. length places.items ≡ count) }
    ensures empty { IfOk result (λ places. (k : ℕ) → slice_index_or places.items k None ≡ None) }
{
    let mut places: Vec<Option<Bounds>> = Vec::new(alloc);
    for _ in 0..count {
        places.push(None)?;
    }
    Ok(places)
}

/// The box of the low child of a split.
pub(crate) fn low_child(
    alloc: Global,
    bounds: &Bounds,
    column: usize,
    at: u32,
) -> Result<Bounds, AllocError>
    requires { column < length bounds.now.high }
    ensures { IfOk result (λ side. side ≡ low_side bounds.now column at) }
{
    let low = bounds.low.as_slice().to_vec(alloc)?;
    let mut high = bounds.high.as_slice().to_vec(alloc)?;
    high[column] = at;
    Ok(Bounds {
        low: List::from_vec(low),
        high: List::from_vec(high),
    })
}

/// The box of the high child of a split.
pub(crate) fn high_child(
    alloc: Global,
    bounds: &Bounds,
    column: usize,
    at: u32,
) -> Result<Bounds, AllocError>
    requires column { column < length bounds.now.low }
    requires at { at < 2 ^ 32 - 1 }
    ensures { IfOk result (λ side. side ≡ high_side bounds.now column at) }
{
    let mut low = bounds.low.as_slice().to_vec(alloc)?;
    let high = bounds.high.as_slice().to_vec(alloc)?;
    low[column] = at + 1;
    Ok(Bounds {
        low: List::from_vec(low),
        high: List::from_vec(high),
    })
}

/// Whether each row that has a multiplier is in the program.
fn rows_are_there(program: &Program, y: &Multipliers) -> bool
    ensures { result ≡ rows_fit program.now y.now }
{
    let rows = program.rows.len();
    y.tops.as_slice().iter().all(|top| top.row < rows)
}

/// Whether a child's number is above its split's, below the number of nodes, and not named before.
fn child_is_right(
    program: &Program,
    nodes: &[Node],
    i: usize,
    places: &[Option<Bounds>],
    child: u32,
) -> bool
    requires index { i < length nodes.now }
    requires size { length places.now ≡ length nodes.now }
    requires held { HoldsFrom program.now nodes.now i (i + 1) places.now }
    ensures { result ≡ child_fits (length nodes.now) (nodes_before nodes.now i) child }
{
    let child = child as usize;
    child > i && child < nodes.len() && places[child].is_none()
}

/// The first rule that a split breaks.
fn broken_split_rule(
    program: &Program,
    nodes: &[Node],
    i: usize,
    places: &[Option<Bounds>],
    bounds: &Bounds,
    column: u32,
    at: u32,
    low: u32,
    high: u32,
) -> Option<TreeWhy>
    requires index { i < length nodes.now }
    requires size { length places.now ≡ length nodes.now }
    requires held { HoldsFrom program.now nodes.now i (i + 1) places.now }
    requires is_box { IsBoxOf program.now bounds.now }
    ensures { result ≡ broken_split program.now (length nodes.now) (nodes_before nodes.now i) bounds.now column at low high }
{
    let place = column as usize;
    if place >= program.columns.as_slice().len() {
        return Some(TreeWhy::Column);
    }
    if !(bounds.low.as_slice()[place] <= at && at < bounds.high.as_slice()[place]) {
        return Some(TreeWhy::At);
    }
    if !(child_is_right(program, nodes, i, places, low)
        && child_is_right(program, nodes, i, places, high)
        && low != high)
    {
        return Some(TreeWhy::Child);
    }
    None
}

/// The first rule that a node breaks.
fn broken_rule_of(
    program: &Program,
    nodes: &[Node],
    i: usize,
    places: &[Option<Bounds>],
    bounds: &Bounds,
    node: &Node,
    sums: &mut Sums,
) -> Option<TreeWhy>
    requires index { i < length nodes.now }
    requires size { length places.now ≡ length nodes.now }
    requires held { HoldsFrom program.now nodes.now i (i + 1) places.now }
    requires is_box { IsBoxOf program.now bounds.now }
    requires sums { sums.old ≡ length program.now.columns }
    ensures rule { result ≡ broken_rule program.now (length nodes.now) (nodes_before nodes.now i) bounds.now node.now }
    ensures sums { sums.new ≡ sums.old }
{
    match node {
        Node::Split {
            column,
            at,
            low,
            high,
            ..
        } => { broken_split_rule(program, nodes, i, places, bounds, *column, *at, *low, *high) }
        Node::Bound(y) => {
            if rows_are_there(program, y) {
                None
            } else {
                Some(TreeWhy::Row)
            }
        }
        Node::Refute(y) => {
            if !rows_are_there(program, y) {
                Some(TreeWhy::Row)
            } else if refutes(program, bounds, y, sums) {
                None
            } else {
                Some(TreeWhy::Weak)
            }
        }
    }
}

impl Least {
    /// The lesser of two bounds.
    fn lesser(self, other: Least) -> Least
        ensures { result ≡ lesser_of self other }
    {
        match (self, other) {
            (Least::At(m), Least::At(n)) => Least::At(m.min(n)),
            (Least::At(m), Least::AllRefuted) => Least::At(m),
            (Least::AllRefuted, later) => later,
        }
    }
}

/// Puts the boxes of a node's children into their places, and gives what the node adds to the bound.
fn visit(
    alloc: Global,
    program: &Program,
    node: &Node,
    bounds: &Bounds,
    places: &mut Vec<Option<Bounds>>,
    sums: &mut Sums,
) -> Result<Least, AllocError>
    requires fits { NodeFits program.now (length places.old.items) bounds.now node.now }
    requires is_box { IsBoxOf program.now bounds.now }
    requires sums { sums.old ≡ length program.now.columns }
    ensures bound { IfOk result (λ found. found ≡ node_bound program.now bounds.now node.now) }
    ensures places { OnOk result (places.new.items ≡ places_after node.now bounds.now places.old.items) }
    ensures sums { sums.new ≡ sums.old }
{
    match node {
        Node::Split {
            column,
            at,
            low,
            high,
            ..
        } => {
            let below = low_child(alloc, bounds, *column as usize, *at)?;
            let above = high_child(alloc, bounds, *column as usize, *at)?;
            places[*low as usize] = Some(below);
            places[*high as usize] = Some(above);
            Ok(Least::AllRefuted)
        }
        Node::Bound(y) => Ok(Least::At(bound(program, bounds, y, sums))),
        Node::Refute(_) => Ok(Least::AllRefuted),
    }
}

/// The least bound over the leaves that are not refuted, or the first fault of the tree.
/// The bound lies at or under the value of each whole point of the program, and where all leaves are refuted there is none.
pub fn lower(alloc: Global, program: &Program, tree: &Tree) -> Result<Least, LowerFault>
    ensures answer { IsLower program.now tree.now.nodes result }
    ensures under { IfOk result (λ found. (point : List ℕ) → IsWholePoint program.now point → LiesUnder found (value_of program.now point)) }
{
    let nodes = tree.nodes.as_slice();
    let mut sums = Sums::new(alloc, program.columns.len())?;
    let mut places = empty_places(alloc, nodes.len())?;
    places[0] = Some(full_box(alloc, program)?);
    let mut found = Least::AllRefuted;
    for (i, node) in nodes.iter().enumerate() {
        let Some(bounds) = places[i].take() else {
            return Err(LowerFault::Tree {
                node: i as u32,
                why: TreeWhy::Orphan,
            });
        };
        if let Some(why) = broken_rule_of(
            program,
            nodes,
            i,
            places.as_slice(),
            &bounds,
            node,
            &mut sums,
        ) {
            return Err(LowerFault::Tree {
                node: i as u32,
                why,
            });
        }
        let here = visit(alloc, program, node, &bounds, &mut places, &mut sums)?;
        found = found.lesser(here);
    }
    Ok(found)
}
