//! Integers by their numbers, each once, and the value of an integer's spelling.
ghost use Rattle.std.specs.Prelude.{◌≡◌, ◌<◌, [], length, Some, IfOk, OnOk, OnErr};
ghost use Rattle.ink_tables.specs.Integers as spec;

use indexmap::IndexSet;
use std::alloc::{AllocError, Global};
use std::marker::Model;

/// The number of an integer. A number that is no integer's stands for 0.
pub type IntegerId = u32;

/// Integers, each at its number, and none twice.
#[derive(Drop)]
pub struct Integers {
    set: IndexSet<i64>,
}

impl Model for Integers {
    ghost use Rattle.std.specs.Prelude.{ℤ, List, length, ◌<◌};

    ghost Value = { List ℤ };

    ghost view = { λ s. s.set.keys };

    ghost invariant = { λ s. length s.set.keys < 4294967296 };
}

impl Integers {
    /// No integers.
    pub fn new(alloc: Global) -> Self
        ensures { result ≡ [] }
    {
        Integers {
            set: IndexSet::new(alloc),
        }
    }

    /// The number of an integer, if it has one.
    pub fn find(&self, value: i64) -> Option<IntegerId>
        ensures number { result ≡ spec.number_of self.now value }
    {
        match self.set.get_index_of(&value) {
            Some(number) => Some(number as u32),
            None => None,
        }
    }

    /// The number of an integer, which it gets if it has none yet.
    ///
    /// An `AllocError` is want of memory, or of numbers.
    pub fn intern(&mut self, value: i64) -> Result<IntegerId, AllocError>
        ensures number { IfOk result (λ number. spec.number_of self.new value ≡ Some number) }
        ensures added { OnOk result (self.new ≡ spec.with_integer self.old value) }
        ensures refused { OnErr result (self.new ≡ self.old) }
    {
        if let Some(number) = self.find(value) {
            return Ok(number);
        }
        let number = self.set.len();
        if number >= u32::MAX as usize {
            return Err(AllocError);
        }
        self.set.insert(value)?;
        Ok(number as u32)
    }

    /// The integer of this number.
    pub fn value(&self, number: IntegerId) -> i64
        ensures { result ≡ spec.integer_of self.now number }
    {
        match self.set.get_index(number as usize) {
            Some(value) => *value,
            None => 0,
        }
    }
}
