//! Small lists of any items.
//!
//! A field that holds a list is of this type, so that a contract sees it as a list.
ghost use Rattle.std.specs.Prelude.{◌≡◌, ◌<◌, ◌↔◌, [], ◌∷◌, ◌++◌, length, slice_get, slice_set, IsTrue, IfErr, MatchOption, OnOk, OnErr, Some};
ghost use Rattle.std.specs.List.{swap};
ghost use Rattle.std.specs.Option.{option_copied};

use std::alloc::{AllocFailed, Global};
use std::marker::Model;
use std::mem;

/// A list, seen as its items in order. Indices count from 0.
#[derive(Debug, Drop)]
pub struct Items<T> {
    items: Vec<T>,
}

impl<T> Model for Items<T> {
    ghost use Rattle.std.specs.Prelude.{List};
    ghost use Rattle.std.specs.Coded.{coded_list};

    ghost Value = { List T };

    ghost coded = { coded_list T.code };

    ghost view = { λ list. list.items.items };
}

impl<T> Items<T> {
    /// No items.
    pub fn new(alloc: Global) -> Items<T>
        ensures { result ≡ [] }
    {
        Items {
            items: Vec::new(alloc),
        }
    }

    /// The items of a vector, which takes no memory.
    pub fn of(items: Vec<T>) -> Items<T>
        ensures { result ≡ items.items }
    {
        Items { items }
    }

    /// How many items there are.
    pub fn len(&self) -> u64
        ensures { result ≡ length self.now }
    {
        self.items.len() as u64
    }

    /// Whether there are none.
    pub fn is_empty(&self) -> bool
        ensures { IsTrue result ↔ (self.now ≡ []) }
    {
        self.items.is_empty()
    }

    /// The item at an index. `None` exactly from the length on.
    pub fn get(&self, index: u64) -> Option<&T>
        ensures { option_copied result ≡ slice_get self.now index }
    {
        if index < self.len() {
            Some(&self.items[index as usize])
        } else {
            None
        }
    }

    /// All of them.
    pub fn as_slice(&self) -> &[T]
        ensures { result.now ≡ self.now }
    {
        self.items.as_slice()
    }

    /// Puts an item at an index, and gives the one that stood there.
    pub fn set(&mut self, index: u64, item: T) -> T
        requires { index < length self.old }
        ensures old { slice_get self.old index ≡ Some result }
        ensures after { self.new ≡ slice_set self.old index item }
    {
        mem::replace(&mut self.items[index as usize], item)
    }

    /// Swaps two items.
    pub fn swap(&mut self, one: u64, other: u64)
        requires one { one < length self.old }
        requires other { other < length self.old }
        ensures { self.new ≡ swap self.old one other }
    {
        self.items.swap(one as usize, other as usize);
    }

    /// Puts an item at the end. Where there is no memory for it, it comes back and the list stays.
    pub fn push(&mut self, item: T) -> Result<(), AllocFailed<T>>
        ensures ok { OnOk result (self.new ≡ self.old ++ item ∷ []) }
        ensures err { OnErr result (self.new ≡ self.old) }
        ensures back { IfErr result (λ failed. failed.value ≡ item) }
    {
        self.items.push(item)
    }

    /// Takes the last item away. `None` exactly where there is none.
    pub fn pop(&mut self) -> Option<T>
        ensures { MatchOption result ((self.old ≡ []) × (self.new ≡ [])) (λ item. self.old ≡ self.new ++ item ∷ []) }
    {
        self.items.pop()
    }
}
