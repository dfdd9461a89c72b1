//! The journal: which process made each event of a run, in order.
ghost use Rattle.std.specs.Prelude.{◌≡◌, ◌+◌, ◌≤◌, [], ◌∷◌, ◌++◌, ◌↔◌, length, slice_get, IsTrue, OnOk, OnErr};

use std::alloc::{AllocError, Global};
use std::marker::Model;

/// The events of a run in the order in which they were made, each named by the number of its process.
///
/// A contract sees its entries, and `spare`, the number of entries that it can take without memory.
#[derive(Drop)]
pub struct Journal {
    entries: Vec<u32>,
}

impl Model for Journal {
    ghost use Rattle.std.specs.Prelude.{◌-◌, vec_len, vec_capacity};
    ghost use Rattle.ink_base.specs.Journal.{JournalView};

    ghost Value = { JournalView };

    ghost view = { λ j. record { entries = j.entries.items; spare = vec_capacity j.entries - vec_len j.entries } };
}

impl Journal {
    /// No entries yet.
    pub fn new(alloc: Global) -> Journal
        ensures { result.entries ≡ [] }
    {
        Journal {
            entries: Vec::new(alloc),
        }
    }

    /// Makes room for `count` more entries.
    pub fn reserve(&mut self, count: u64) -> Result<(), AllocError>
        ensures room { OnOk result (count ≤ self.new.spare) }
        ensures entries { self.new.entries ≡ self.old.entries }
        ensures err { OnErr result (self.new ≡ self.old) }
    {
        self.entries.reserve(count as usize)
    }

    /// Adds an entry of a process. It takes no memory.
    pub fn add(&mut self, process: u32)
        requires { 1 ≤ self.old.spare }
        ensures entries { self.new.entries ≡ self.old.entries ++ process ∷ [] }
        ensures spare { self.new.spare + 1 ≡ self.old.spare }
    {
        self.entries.push_reserved(process);
    }

    /// How many entries there are.
    pub fn len(&self) -> u64
        ensures { result ≡ length self.now.entries }
    {
        self.entries.len() as u64
    }

    /// Whether there are none.
    pub fn is_empty(&self) -> bool
        ensures { IsTrue result ↔ (self.now.entries ≡ []) }
    {
        self.entries.is_empty()
    }

    /// The process of entry `index`, counted from 0. `None` exactly from the length on.
    pub fn get(&self, index: u64) -> Option<u32>
        ensures { result ≡ slice_get self.now.entries index }
    {
        if index < self.len() {
            Some(self.entries[index as usize])
        } else {
            None
        }
    }
}
