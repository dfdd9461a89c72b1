//! A list whose items are numbered from 1.
ghost use Rattle.std.specs.Prelude.{◌≡◌, ◌+◌, ◌≤◌, [], ◌∷◌, ◌++◌, ◌↔◌, IsOk, IsTrue, OnErr, OnOk, length};
ghost use Rattle.std.specs.Option.{option_copied};
ghost use Rattle.ink_base.specs.Numbered.{numbered, set_numbered};

use std::alloc::{AllocError, Global};
use std::marker::Model;
use std::mem;

/// Items by number. A contract sees them in order, and `spare`, the number of items that can be added without memory.
#[derive(Drop)]
pub struct Numbered<T> {
    items: Vec<T>,
}

impl<T> Model for Numbered<T> {
    ghost use Rattle.std.specs.Prelude.{ℕ, List, ◌-◌, refl, vec_len, vec_capacity};
    ghost use Rattle.std.specs.Coded.{code_by, coded×, coded_list, coded_ℕ};
    ghost use Rattle.ink_numbered.specs.Roomy.{Roomy};

    ghost Value = { Roomy T };

    ghost coded = { code_by (List T × ℕ) (coded× (coded_list T.code) coded_ℕ) (λ r. (r.items, r.spare)) (λ p. record { items = p.0; spare = p.1 }) (λ _. refl) };

    ghost view = { λ list. record { items = list.items.items; spare = vec_capacity list.items - vec_len list.items } };
}

impl<T> Numbered<T> {
    /// No items.
    pub fn new(alloc: Global) -> Numbered<T>
        ensures { result.items ≡ [] }
    {
        Numbered {
            items: Vec::new(alloc),
        }
    }

    /// How many items there are.
    pub fn len(&self) -> u64
        ensures { result ≡ length self.now.items }
    {
        self.items.len() as u64
    }

    /// Whether there are none.
    pub fn is_empty(&self) -> bool
        ensures { IsTrue result ↔ (self.now.items ≡ []) }
    {
        self.items.is_empty()
    }

    /// Makes room for `count` more items. No memory is wanted where there is that room.
    pub fn reserve(&mut self, count: u64) -> Result<(), AllocError>
        ensures room { OnOk result (count ≤ self.new.spare) }
        ensures items { self.new.items ≡ self.old.items }
        ensures err { OnErr result (self.new ≡ self.old) }
        ensures succeeds { count ≤ self.old.spare → IsOk result }
    {
        self.items.reserve(count as usize)
    }

    /// Adds an item, which has the next number. It takes no memory.
    pub fn add(&mut self, item: T)
        requires { 1 ≤ self.old.spare }
        ensures items { self.new.items ≡ self.old.items ++ item ∷ [] }
        ensures spare { self.new.spare + 1 ≡ self.old.spare }
    {
        self.items.push_reserved(item);
    }

    /// All of them in order.
    pub fn as_slice(&self) -> &[T]
        ensures { result.now ≡ self.now.items }
    {
        self.items.as_slice()
    }

    /// The item of a number. `None` exactly where there is none.
    pub fn get(&self, number: u32) -> Option<&T>
        ensures { option_copied result ≡ numbered self.now.items number }
    {
        if number == 0 || number as u64 > self.len() {
            return None;
        }
        Some(&self.items[number as usize - 1])
    }

    /// Puts an item in the place of the one of a number, and gives that one. `None` exactly where there is none, and then
    /// nothing is put.
    pub fn set(&mut self, number: u32, item: T) -> Option<T>
    where
        T: Drop,
        ensures old { result ≡ numbered self.old.items number }
        ensures after { self.new.items ≡ set_numbered self.old.items number item }
        ensures spare { self.new.spare ≡ self.old.spare }
    {
        if number == 0 || number as u64 > self.len() {
            return None;
        }
        Some(mem::replace(&mut self.items[number as usize - 1], item))
    }
}
