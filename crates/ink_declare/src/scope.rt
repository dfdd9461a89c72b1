//! What names stand for where scopes lie in one another: a name hides an earlier one until its scope ends.

use indexmap::IndexMap;
use ink_forms::NameId;
use std::alloc::{AllocError, Global};

/// A number that a name stands for, and how many names were declared before it in scopes that haven't ended.
#[derive(Clone, Copy)]
struct Meaning {
    number: u32,
    depth: usize,
}

/// A name that was declared, and what it stood for before.
#[derive(Clone, Copy)]
struct Hidden {
    name: NameId,
    before: Option<Meaning>,
}

/// Names in scope, each with a number. What a declaration hides comes back when its scope ends.
#[derive(Drop)]
pub(crate) struct Scope {
    meanings: IndexMap<NameId, Option<Meaning>>,
    hidden: Vec<Hidden>,
}

impl Scope {
    /// No names.
    pub fn new(alloc: Global) -> Self {
        Scope {
            meanings: IndexMap::new(alloc),
            hidden: Vec::new(alloc),
        }
    }

    /// How many names are declared: where a scope begins that is to end later.
    pub fn depth(&self) -> usize {
        self.hidden.len()
    }

    /// What a name stands for, the declaration of it that was last.
    fn meaning(&self, name: NameId) -> Option<Meaning> {
        match self.meanings.get(&name) {
            Some(meaning) => *meaning,
            None => None,
        }
    }

    /// The number that a name stands for.
    pub fn find(&self, name: NameId) -> Option<u32> {
        match self.meaning(name) {
            Some(meaning) => Some(meaning.number),
            None => None,
        }
    }

    /// The number that a name stands for, if it was declared in the scope that begins here.
    pub fn find_from(&self, depth: usize, name: NameId) -> Option<u32> {
        match self.meaning(name) {
            Some(meaning) if meaning.depth >= depth => Some(meaning.number),
            _ => None,
        }
    }

    /// Declares a name.
    pub fn declare(&mut self, name: NameId, number: u32) -> Result<(), AllocError> {
        let before = self.meaning(name);
        let depth = self.hidden.len();
        self.hidden.push(Hidden { name, before })?;
        self.meanings.insert(name, Some(Meaning { number, depth }))?;
        Ok(())
    }

    /// Ends the scope that began here.
    pub fn end(&mut self, depth: usize) {
        while self.hidden.len() > depth {
            if let Some(Hidden { name, before }) = self.hidden.pop() {
                if let Some(meaning) = self.meanings.get_mut(&name) {
                    *meaning = before;
                }
            }
        }
    }
}
