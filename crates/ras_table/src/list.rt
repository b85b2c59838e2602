ghost use Rattle.std.specs.Prelude.{◌≡◌, ◌^◌, ◌+◌, ◌-◌, ◌<◌, ◌↔◌, IsTrue, OnSome, [], ◌∷◌, ◌++◌, IfOk, IfErr, OnOk, OnErr, length, slice_get, slice_set};
ghost use Rattle.std.specs.Option.{option_copied};

use std::alloc::{AllocError, Global};
use std::marker::Model;

/// Fewer than 2^32 items, which contracts see as a list.
#[derive(Debug, Drop)]
pub struct List<T> {
    items: Vec<T>,
}

impl<T> Model for List<T> {
    ghost use Rattle.std.specs.Prelude.{List, length, ◌<◌, ◌^◌};
    ghost use Rattle.std.specs.Coded.{coded_list};

    ghost Value = { List T };

    ghost coded = { coded_list T.code };

    ghost view = { λ a. a.items.items };

    ghost invariant = { λ a. length a.items.items < 2 ^ 32 };
}

impl<T> List<T> {
    /// An empty list that asks for this much room beforehand.
    pub fn new(alloc: Global, room: u32) -> Result<List<T>, AllocError>
        ensures { IfOk result (λ list. list ≡ []) }
    {
        Ok(List {
            items: Vec::with_capacity(alloc, room as usize)?,
        })
    }

    /// The list of these items.
    pub fn from_vec(items: Vec<T>) -> List<T>
        requires { length items.items < 2 ^ 32 }
        ensures { result ≡ items.items }
    {
        List { items }
    }

    /// The items.
    pub fn into_vec(self) -> Vec<T>
        ensures items { result.items ≡ self }
        ensures few { length result.items < 2 ^ 32 }
    {
        let List { items } = self;
        items
    }

    /// The items, lent.
    pub fn as_slice(&self) -> &[T]
        ensures items { result.now ≡ self.now }
        ensures few { length self.now < 2 ^ 32 }
    {
        self.items.as_slice()
    }

    /// How many items there are.
    pub fn len(&self) -> u32
        ensures { result ≡ length self.now }
    {
        self.items.len() as u32
    }

    /// Whether there is no item.
    pub fn is_empty(&self) -> bool
        ensures { IsTrue result ↔ (self.now ≡ []) }
    {
        self.items.is_empty()
    }

    /// The item with this number.
    pub fn get(&self, i: u32) -> Option<&T>
        ensures item { option_copied result ≡ slice_get self.now i }
        ensures within { OnSome result (i < length self.now) }
    {
        self.items.get(i as usize)
    }

    /// Puts another item in the place of one.
    pub fn set(&mut self, i: u32, value: T)
    where
        T: Drop,
        requires { i < length self.old }
        ensures { self.new ≡ slice_set self.old i value }
    {
        self.items[i as usize] = value;
    }

    /// Adds an item at the end, or hands it back for want of memory.
    pub fn push(&mut self, value: T) -> Result<(), T>
        requires { length self.old < 2 ^ 32 - 1 }
        ensures ok { OnOk result (self.new ≡ self.old ++ value ∷ []) }
        ensures err { OnErr result (self.new ≡ self.old) }
        ensures back { IfErr result (λ back. back ≡ value) }
    {
        match self.items.push(value) {
            Ok(()) => Ok(()),
            Err(refused) => Err(refused.value),
        }
    }
}
