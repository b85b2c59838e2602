//! A tree that grows from one leaf.
ghost use Rattle.std.specs.Prelude.{◌≡◌, ◌+◌, ◌*◌, ◌<◌, ◌≤◌, ◌^◌, [], ◌∷◌, ◌++◌, IfOk, IsSome, OnOk, OnErr, if◌then◌else◌, ◌-◌, length};
ghost use Rattle.std.specs.Option.{option_copied};
ghost use Rattle.ip_model.specs.declared.program.Program.{Program};
ghost use Rattle.ip_model.specs.Choices.{choices_of};
ghost use Rattle.ip_model.specs.Points.{full_box_of};
ghost use Rattle.bound_certificate.specs.Trees.{bound_of_tree};
ghost use Rattle.search_tree.specs.Boxes.{box_at, part_below, part_above};
ghost use Rattle.search_tree.specs.Growth.{split_nodes, IsLeafOf, CanSplit, IsGrown};
ghost use Rattle.search_tree.specs.Leaves.{multipliers_at, IsLeast};

use bound_certificate::{Multipliers, Node, Tree};
use ip_model::{Bounds, Point, Program, full_box};
use ras_table::List;
use std::alloc::{AllocError, Global};
use std::marker::Model;

/// A tree of splits that starts as one leaf and grows by splits of leaves, seen as the list of its nodes. It keeps which nodes were split,
/// in order, since the node at place s among them is the parent of nodes 2s + 1 and 2s + 2.
#[derive(Debug, Drop)]
pub struct SearchTree {
    nodes: Vec<Node>,
    splits: Vec<u32>,
}

impl Model for SearchTree {
    ghost use Rattle.std.specs.Prelude.{List, length, ◌<◌, ◌^◌};
    ghost use Rattle.std.specs.Coded.{coded_list};
    ghost use Rattle.bound_certificate.specs.declared.tree.Node.{Node};
    ghost use Rattle.search_tree.specs.Splits.{HasSplits};

    ghost Value = { List Node };

    ghost view = { λ tree. tree.nodes.items };

    ghost invariant = { λ tree. (length tree.nodes.items < 2 ^ 32) × HasSplits tree.nodes.items tree.splits.items };
}

/// Adds two nodes at the end, or neither.
fn push_both(nodes: &mut Vec<Node>, first: Node, second: Node) -> Result<(), AllocError>
    ensures ok { OnOk result (nodes.new.items ≡ nodes.old.items ++ first ∷ second ∷ []) }
    ensures err { OnErr result (nodes.new.items ≡ nodes.old.items) }
{
    nodes.push(first)?;
    if let Err(refused) = nodes.push(second) {
        let _first = nodes.pop();
        return Err(AllocError::from(refused));
    }
    Ok(())
}

/// Adds the number of a split and its children at the end, or nothing.
fn push_split(
    nodes: &mut Vec<Node>,
    splits: &mut Vec<u32>,
    i: u32,
    low: Node,
    high: Node,
) -> Result<(), AllocError>
    ensures nodes { OnOk result (nodes.new.items ≡ nodes.old.items ++ low ∷ high ∷ []) }
    ensures splits { OnOk result (splits.new.items ≡ splits.old.items ++ i ∷ []) }
    ensures nodes_kept { OnErr result (nodes.new.items ≡ nodes.old.items) }
    ensures splits_kept { OnErr result (splits.new.items ≡ splits.old.items) }
{
    splits.push(i)?;
    if let Err(refused) = push_both(nodes, low, high) {
        let _split = splits.pop();
        return Err(refused);
    }
    Ok(())
}

/// Cuts a box down to its part on one side of a split.
fn cut(bounds: &mut Bounds, column: u32, at: u32, is_low: bool)
    requires low { column < length bounds.old.low }
    requires high { column < length bounds.old.high }
    requires at { at < 2 ^ 32 - 1 }
    ensures { bounds.new ≡ (if is_low then part_below bounds.old column at else part_above bounds.old column at) }
{
    if is_low {
        let most = at.min(bounds.high.as_slice()[column as usize]);
        bounds.high.set(column, most);
    } else {
        let least = (at + 1).max(bounds.low.as_slice()[column as usize]);
        bounds.low.set(column, least);
    }
}

impl SearchTree {
    /// The tree of one leaf. The only fault is want of memory.
    pub fn new(alloc: Global, leaf: Node) -> Result<SearchTree, AllocError>
        ensures nodes { IfOk result (λ tree. tree ≡ leaf ∷ []) }
        ensures grown { IfOk result (λ tree. (program : Program) → IsLeafOf program (full_box_of program) leaf → IsGrown program tree) }
    {
        let nodes = vec![in alloc; leaf]?;
        let splits = Vec::new(alloc);
        Ok(SearchTree { nodes, splits })
    }

    /// How many nodes there are.
    pub fn len(&self) -> u32
        ensures { result ≡ length self.now }
    {
        self.nodes.len() as u32
    }

    /// The multipliers of a leaf that is not refuted.
    pub fn multipliers(&self, i: u32) -> Option<&Multipliers>
        ensures { option_copied result ≡ multipliers_at self.now i }
    {
        match self.nodes.get(i as usize) {
            Some(Node::Bound(y)) => Some(y),
            _ => None,
        }
    }

    /// The box of a node, by the splits that lead to it. The only fault is want of memory.
    pub fn bounds(&self, alloc: Global, program: &Program, k: u32) -> Result<Bounds, AllocError>
        requires there { k < length self.now }
        requires grown { IsGrown program.now self.now }
        ensures { IfOk result (λ box. box ≡ box_at program.now self.now k) }
    {
        let mut bounds = full_box(alloc, program)?;
        let mut node = k;
        while node > 0 {
            let parent = self.splits[(node as usize - 1) / 2];
            let Node::Split {
                column,
                at,
                low,
                ..
            } = &self.nodes[parent as usize]
            else {
                unreachable!()
            };
            cut(&mut bounds, *column, *at, node == *low);
            node = parent;
        }
        Ok(bounds)
    }

    /// Splits leaf `i`, which is not refuted, in a column at `at`. The leaf of the low side becomes the node with the number of nodes so far,
    /// that of the high side the next. The shown point tells why the leaf was split.
    /// The only fault is want of memory, after which the tree is as before.
    pub fn split(
        &mut self,
        i: u32,
        column: u32,
        at: u32,
        shown: Option<Point>,
        low: Node,
        high: Node,
    ) -> Result<(), AllocError>
        requires leaf { IsSome (multipliers_at self.old i) }
        requires room { length self.old < 2 ^ 31 }
        ensures ok { OnOk result (self.new ≡ split_nodes self.old i column at shown low high) }
        ensures err { OnErr result (self.new ≡ self.old) }
        ensures grown { OnOk result ((program : Program) → IsGrown program self.old → CanSplit program self.old i column at low high → IsGrown program self.new) }
    {
        let count = self.nodes.len() as u32;
        push_split(&mut self.nodes, &mut self.splits, i, low, high)?;
        self.nodes[i as usize] = Node::Split {
            column,
            at,
            low: count,
            high: count + 1,
            shown,
        };
        Ok(())
    }

    /// The tree. Its bound is the least of its leaves' bounds, and it has fewer nodes than twice the ways to set the count columns.
    pub fn into_tree(self) -> Tree
        ensures nodes { result.nodes ≡ self }
        ensures bound { (program : Program) → IsLeast program self (bound_of_tree program self) }
        ensures few { (program : Program) → IsGrown program self → length self + 1 ≤ 2 * choices_of program.columns }
    {
        Tree {
            nodes: List::from_vec(self.nodes),
        }
    }
}
