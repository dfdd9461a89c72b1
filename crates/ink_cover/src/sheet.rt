//! The sheet of a match: its types and patterns by numbers.

use indexmap::IndexSet;
use ink_matrix::{Kind, Part, Pattern, Shape};
use ink_types::TypeId;
use std::alloc::{AllocError, Global};

/// The types and patterns of a match. A type is opened where a pattern names something of it; one that isn't has no cases
/// here.
#[derive(Drop)]
pub(crate) struct Sheet {
    types: IndexSet<TypeId>,
    kinds: Vec<Kind>,
    are_open: Vec<bool>,
    patterns: Vec<Pattern>,
}

impl Sheet {
    /// A sheet without entries.
    pub fn new(alloc: Global) -> Self {
        Sheet {
            types: IndexSet::new(alloc),
            kinds: Vec::new(alloc),
            are_open: Vec::new(alloc),
            patterns: Vec::new(alloc),
        }
    }

    /// What values the types have, each at its number.
    pub fn kinds(&self) -> &[Kind] {
        &self.kinds
    }

    /// The patterns, each at its number.
    pub fn patterns(&self) -> &[Pattern] {
        &self.patterns
    }

    /// The type of a number.
    pub fn type_of(&self, column: usize) -> Option<TypeId> {
        self.types.get_index(column).copied()
    }

    /// The number of a type that is no borrow and no `uni`, which it gets if it has none yet.
    pub fn number_of(&mut self, alloc: Global, of: TypeId) -> Result<usize, AllocError> {
        if let Some(number) = self.types.get_index_of(&of) {
            return Ok(number);
        }
        let number = self.types.len();
        self.types.insert(of)?;
        self.kinds.push(Kind::Cases(Vec::new(alloc)))?;
        self.are_open.push(false)?;
        Ok(number)
    }

    /// Whether a type is opened.
    pub fn is_open(&self, column: usize) -> bool {
        match self.are_open.get(column) {
            Some(is_open) => *is_open,
            None => false,
        }
    }

    /// Opens a type: it has these values.
    pub fn open(&mut self, column: usize, kind: Kind) {
        if let Some(old) = self.kinds.get_mut(column) {
            *old = kind;
        }
        if let Some(is_open) = self.are_open.get_mut(column) {
            *is_open = true;
        }
    }

    /// The types of the parts of a case.
    pub fn fields(&self, column: usize, case: usize) -> &[usize] {
        match self.kinds.get(column) {
            Some(Kind::Cases(cases)) => match cases.get(case) {
                Some(fields) => fields,
                None => &[],
            },
            Some(Kind::Literals) => &[],
            None => &[],
        }
    }

    /// Adds a pattern with these alternatives.
    pub fn add(&mut self, alternatives: Vec<Shape>) -> Result<Part, AllocError> {
        let number = self.patterns.len();
        self.patterns.push(Pattern { alternatives })?;
        Ok(Some(number))
    }
}
