//! Spellings by their numbers, each once.
ghost use Rattle.std.specs.Prelude.{◌≡◌, ◌<◌, [], length, slice_get, Some, IfOk, OnOk, OnErr, IsTrue};
ghost use Rattle.ink_tables.specs.Spellings as spec;

use indexmap::IndexSet;
use std::alloc::{AllocError, Global};
use std::marker::Model;

/// The number of a name. A number that is no name's stands for the empty one.
pub type NameId = u32;

/// The number of a text. A number that is no text's stands for the empty one.
pub type TextId = u32;

/// The names of a module.
pub type Names = Spellings;

/// The texts of a module, unescaped.
pub type Texts = Spellings;

/// Spellings, each at its number, and none twice.
#[derive(Drop)]
pub struct Spellings {
    set: IndexSet<Vec<u8>>,
}

impl Model for Spellings {
    ghost use Rattle.std.specs.Prelude.{ℕ, List, map, length, ◌≤◌, ◌<◌};

    ghost Value = { List (List ℕ) };

    ghost view = { λ s. map (λ spelling. spelling.items) s.set.keys };

    ghost invariant = { λ s. length s.set.keys < 4294967296 };
}

impl Spellings {
    /// No spellings.
    pub fn new(alloc: Global) -> Self
        ensures { result ≡ [] }
    {
        Spellings {
            set: IndexSet::new(alloc),
        }
    }

    /// The number of a spelling, if it has one.
    pub fn find(&self, bytes: &[u8]) -> Option<u32>
        ensures number { result ≡ spec.number_of self.now bytes.now }
    {
        match self.set.get_index_of(bytes) {
            Some(number) => Some(number as u32),
            None => None,
        }
    }

    /// The number of a spelling, which it gets if it has none yet.
    ///
    /// An `AllocError` is want of memory, or of numbers.
    pub fn intern(&mut self, alloc: Global, bytes: &[u8]) -> Result<u32, AllocError>
        ensures number { IfOk result (λ number. spec.number_of self.new bytes.now ≡ Some number) }
        ensures added { OnOk result (self.new ≡ spec.with_spelling self.old bytes.now) }
        ensures refused { OnErr result (self.new ≡ self.old) }
    {
        if let Some(number) = self.find(bytes) {
            return Ok(number);
        }
        let number = self.set.len();
        if number >= u32::MAX as usize {
            return Err(AllocError);
        }
        let spelling = Vec::from_slice(alloc, bytes)?;
        self.set.insert(spelling)?;
        Ok(number as u32)
    }

    /// The spelling of this number.
    pub fn text(&self, number: u32) -> &[u8]
        ensures { result.now ≡ spec.spelling_of self.now number }
    {
        match self.set.get_index(number as usize) {
            Some(spelling) => spelling.as_slice(),
            None => &[],
        }
    }
}
