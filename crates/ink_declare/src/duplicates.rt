//! Names that are declared or given twice in one list.

use crate::words::is_reserved;
use indexmap::IndexSet;
use ink_base::Rule;
use ink_forms::{Identifier, NameId};
use ink_names::Least;
use ink_tables::Names;
use std::alloc::{AllocError, Global};

/// The names of a list so far.
#[derive(Drop)]
pub(crate) struct NameList {
    names: IndexSet<NameId>,
}

impl NameList {
    /// No names.
    pub fn new(alloc: Global) -> Self {
        NameList {
            names: IndexSet::new(alloc),
        }
    }

    /// Adds a name, and tells whether it is the first of its spelling. Another breaks the rule.
    pub fn add(&mut self, least: &mut Least, name: NameId, place: u32) -> Result<bool, AllocError> {
        let is_first = self.names.insert(name)?;
        if !is_first {
            least.break_at(Rule::DuplicateName, place);
        }
        Ok(is_first)
    }

    /// Adds the name of a type, a trait or a type parameter, which may not be a built-in one either.
    pub fn add_type(
        &mut self,
        least: &mut Least,
        names: &Names,
        name: Identifier,
    ) -> Result<bool, AllocError> {
        if is_reserved(names.text(name.name)) {
            least.break_at(Rule::DuplicateName, name.place);
        }
        self.add(least, name.name, name.place)
    }
}
