//! Numbers by pairs of numbers.
ghost use Rattle.std.specs.Prelude.{◌≡◌, ℕ, None, Some, OnOk, OnErr};
ghost use Rattle.ink_names.specs.Pairs as spec;

use indexmap::IndexMap;
use std::alloc::{AllocError, Global};

/// A number for some pairs of numbers.
#[derive(Drop)]
pub struct Pairs {
    numbers: IndexMap<(u32, u32), u32>,
}

impl Pairs {
    /// No pairs.
    pub fn new(alloc: Global) -> Self
        ensures { (a b : ℕ) → spec.number_of result a b ≡ None }
    {
        Pairs {
            numbers: IndexMap::new(alloc),
        }
    }

    /// The number of a pair, if it has one.
    pub fn get(&self, first: u32, second: u32) -> Option<u32>
        ensures { result ≡ spec.number_of self.now first second }
    {
        self.numbers.get(&(first, second)).copied()
    }

    /// Gives a pair this number, in the place of another. An `AllocError` is want of memory.
    pub fn put(&mut self, first: u32, second: u32, number: u32) -> Result<(), AllocError>
        ensures put { OnOk result (spec.number_of self.new first second ≡ Some number) }
        ensures others { OnOk result (spec.SameBut first second self.old self.new) }
        ensures refused { OnErr result (spec.Same self.old self.new) }
    {
        self.numbers.insert((first, second), number)?;
        Ok(())
    }
}
