//! The table of type terms, and how it grows.
ghost use Rattle.std.specs.Prelude.{◌≡◌, ◌↔◌, IsTrue, ℕ, ◌+◌, ◌<◌, ◌≤◌, ◌∷◌, ◌++◌, [], length, take, Some, IfSome, OnOk, OnErr, IfOk, slice_get};
ghost use Rattle.std.specs.Option.{option_map};
ghost use Rattle.ink_types.specs.TypeTerms as types;
ghost use Rattle.ink_types.specs.Table as table;

use crate::kind::FIRST_ADDED;
use crate::term::{ArgumentList, Key, Term, TypeId};
use indexmap::IndexSet;
use std::alloc::{AllocError, Global};
use std::marker::Model;

/// Type terms by their numbers, each once, and which kinds are async.
#[derive(Drop)]
pub struct Types {
    keys: IndexSet<Key>,
    added: Vec<bool>,
}

impl Model for Types {
    ghost use Rattle.std.specs.Prelude.{◌++◌, ◌<◌, length};
    ghost use Rattle.ink_types.specs.Table.{TypeTable, items_of, first_kinds, IsTable};
    ghost use Rattle.ink_types.specs.Codes.{coded_table};

    ghost Value = { TypeTable };

    ghost coded = { coded_table };

    ghost view = { λ s. record { items = items_of s.keys.keys; kinds = first_kinds ++ s.added.items } };

    ghost invariant = { λ s. IsTable s.keys.keys × (length s.added.items < 4294967283) };
}

impl Types {
    /// No terms, and the kinds 0 to 12, none of which is async.
    pub fn new(alloc: Global) -> Self
        ensures { result ≡ record { items = []; kinds = table.first_kinds } }
    {
        Types {
            keys: IndexSet::new(alloc),
            added: Vec::new(alloc),
        }
    }

    /// A new kind, by the next number.
    ///
    /// An `AllocError` is want of memory, or of numbers.
    pub fn add_kind(&mut self, is_async: bool) -> Result<u32, AllocError>
        ensures number { IfOk result (λ k. k ≡ length self.old.kinds) }
        ensures added { OnOk result (self.new ≡ record self.old { kinds = self.old.kinds ++ is_async ∷ [] }) }
        ensures refused { OnErr result (self.new ≡ self.old) }
    {
        let count = self.added.len();
        if count >= (u32::MAX - FIRST_ADDED - 1) as usize {
            return Err(AllocError);
        }
        self.added.push(is_async)?;
        Ok(FIRST_ADDED + count as u32)
    }

    /// Whether a kind is async.
    pub fn is_async(&self, kind: u32) -> bool
        ensures { result ≡ types.is_async self.now.kinds kind }
    {
        let added = &self.added;
        if kind < FIRST_ADDED {
            return false;
        }
        match added.get((kind - FIRST_ADDED) as usize) {
            Some(is_async) => *is_async,
            None => false,
        }
    }

    /// Whether two numbers are of one type. A type that is there has one number.
    pub fn same(&self, t: TypeId, u: TypeId) -> bool
        ensures means { result ≡ types.same_type (table.type_at self.now t) (table.type_at self.now u) }
        ensures tells { IsTrue result ↔ (table.type_at self.now t ≡ table.type_at self.now u) }
        ensures one_number { table.HoldsType self.now.items t → table.HoldsType self.now.items u → table.type_at self.now t ≡ table.type_at self.now u → t ≡ u }
    {
        let _ = &self.keys;
        if t == u {
            return true;
        }
        self.are_never(t, u)
    }

    /// What has a number. Its parts have smaller ones.
    pub(crate) fn key(&self, number: u32) -> Option<Key>
        ensures item { slice_get self.now.items number ≡ option_map (table.grown self.now.items) result }
        ensures fits { IfSome result (λ k. table.Fits self.now.items k) }
        ensures behind { IfSome result (λ k. table.IsBehind number k) }
    {
        self.keys.get_index(number as usize).copied()
    }

    /// How many numbers are given.
    pub(crate) fn count(&self) -> u32
        ensures { result ≡ length self.now.items }
    {
        self.keys.len() as u32
    }

    /// The number of a key, which it gets if it has none yet.
    ///
    /// An `AllocError` is want of memory, or of numbers.
    pub(crate) fn number_of(&mut self, key: Key) -> Result<u32, AllocError>
        requires { table.Fits self.old.items key }
        ensures keeps { table.Keeps self.old self.new }
        ensures means { IfOk result (λ n. slice_get self.new.items n ≡ Some (table.grown self.old.items key)) }
        ensures refused { OnErr result (self.new ≡ self.old) }
    {
        if let Some(number) = self.keys.get_index_of(&key) {
            return Ok(number as u32);
        }
        let number = self.keys.len();
        if number >= u32::MAX as usize - 1 {
            return Err(AllocError);
        }
        self.keys.insert(key)?;
        Ok(number as u32)
    }

    /// Takes back the numbers from this one on.
    pub(crate) fn shorten(&mut self, count: u32)
        ensures { self.new ≡ record self.old { items = take count self.old.items } }
    {
        self.keys.truncate(count as usize);
    }
}
