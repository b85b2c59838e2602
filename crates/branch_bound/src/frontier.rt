//! The open leaves of a search, the one of least bound first.
ghost use Rattle.std.specs.Prelude.{◌≡◌, ℕ, ◌+◌, ◌<◌, ◌≤◌, ◌^◌, ◌++◌, [], ◌∷◌, IfNone, IfSome, OnOk, Some, None, length, slice_get, slice_set};
ghost use Rattle.branch_bound.specs.declared.leaf.OpenLeaf.{OpenLeaf};
ghost use Rattle.branch_bound.specs.Keys.{IsLeastOpen};

use crate::leaf::{NumberedLeaf, OpenLeaf};
use slab::Slab;
use std::alloc::{AllocError, Global};
use std::cmp::Reverse;
use std::collections::BinaryHeap;
use std::marker::Model;

/// For each node what is open there, seen as that list. The open leaves stand in slots, so that the memory of those that were taken out is
/// used again, and each has a key of its bound, its node's number and its slot.
#[derive(Drop)]
pub struct Frontier {
    slots: Slab<NumberedLeaf>,
    keys: BinaryHeap<Reverse<(u64, u32, usize)>>,
    nodes: u32,
}

impl Model for Frontier {
    ghost use Rattle.std.specs.Prelude.{List, Option, ◌<◌, ◌^◌};
    ghost use Rattle.std.specs.BinaryHeap.{heap_items, IsHeap};
    ghost use Rattle.branch_bound.specs.declared.leaf.OpenLeaf.{OpenLeaf};
    ghost use Rattle.branch_bound.specs.Keys.{HoldsKeys, key_order};
    ghost use Rattle.branch_bound.specs.Slots.{IsNumbered, leaves_of};

    ghost Value = { List (Option OpenLeaf) };

    ghost view = { λ f. leaves_of f.slots.slots f.nodes };

    ghost invariant = { λ f. (IsHeap key_order (heap_items f.keys)) × HoldsKeys f.slots.slots (heap_items f.keys) × IsNumbered f.slots.slots f.nodes × (f.nodes < 2 ^ 32) };
}

impl Frontier {
    /// No node.
    pub fn new(alloc: Global) -> Frontier
        ensures { result ≡ [] }
    {
        Frontier {
            slots: Slab::new(alloc),
            keys: BinaryHeap::new(alloc),
            nodes: 0,
        }
    }

    /// Adds the next node, which is open.
    fn push_open(&mut self, leaf: OpenLeaf) -> Result<(), AllocError>
        requires { length self.old < 2 ^ 31 }
        ensures { OnOk result (self.new ≡ self.old ++ Some leaf ∷ []) }
    {
        self.slots.reserve(1)?;
        let node = self.nodes;
        let key = Reverse((leaf.bound, node, self.slots.vacant_key()));
        self.keys.push(key)?;
        self.slots.insert_reserved(NumberedLeaf { node, leaf });
        self.nodes = node + 1;
        Ok(())
    }

    /// Adds the next node.
    pub fn push(&mut self, leaf: Option<OpenLeaf>) -> Result<(), AllocError>
        requires { length self.old < 2 ^ 31 }
        ensures { OnOk result (self.new ≡ self.old ++ leaf ∷ []) }
    {
        if let Some(leaf) = leaf {
            return self.push_open(leaf);
        }
        self.nodes += 1;
        Ok(())
    }

    /// Takes out the open leaf of least bound, with its node's number.
    pub fn pop(&mut self) -> Option<(u32, OpenLeaf)>
        ensures least { IfSome result (λ popped. IsLeastOpen self.old popped.0 popped.1) }
        ensures taken { IfSome result (λ popped. self.new ≡ slice_set self.old popped.0 None) }
        ensures none { IfNone result ((k : ℕ) (leaf : OpenLeaf) → slice_get self.old k ≡ Some (Some leaf) → ⊥) }
    {
        match self.keys.pop() {
            None => None,
            Some(Reverse((_bound, _node, slot))) => {
                let NumberedLeaf { node, leaf } = self.slots.remove(slot);
                Some((node, leaf))
            }
        }
    }
}
