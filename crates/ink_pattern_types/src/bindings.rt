//! The variables that a pattern binds, on the way through it.

use indexmap::{IndexMap, IndexSet};
use ink_forms::{NameId, PatternId};
use ink_types::{TypeId, Types};
use std::alloc::{AllocError, Global};

/// A variable that is bound: its type is not known where a pattern round it is broken.
#[derive(Clone, Copy)]
struct Binding {
    name: NameId,
    is_mutable: bool,
    of: Option<TypeId>,
    /// Whether its name wasn't bound yet.
    is_first: bool,
}

/// A variable of a first alternative, and the pattern that bound its name last: that with the alternatives, or a further
/// alternative.
#[derive(Clone, Copy)]
struct Kept {
    binding: Binding,
    last: PatternId,
}

/// The variables that are bound so far. Those of a pattern with alternatives are those of its first one.
#[derive(Drop)]
pub(crate) struct Bindings {
    bound: Vec<Binding>,
    /// The names that can't be bound again here.
    taken: IndexSet<NameId>,
    /// The variables of first alternatives, by the pattern with the alternatives and the name.
    first: IndexMap<(PatternId, NameId), Kept>,
}

/// How far a pattern with alternatives is judged.
#[derive(Clone, Copy)]
pub(crate) struct Alternatives {
    /// The pattern with the alternatives.
    pub number: PatternId,
    /// Whether all alternatives so far bind the same.
    pub is_alike: bool,
    /// How many variables were bound before it.
    before: usize,
    /// What its first alternative binds, once that is judged.
    first: Option<First>,
}

/// How many variables are bound up to the end of a first alternative, and how many names there are among its own.
#[derive(Clone, Copy)]
struct First {
    end: usize,
    names: usize,
}

/// What was bound behind so many.
fn behind(bound: &[Binding], count: usize) -> &[Binding] {
    if count <= bound.len() {
        &bound[count..]
    } else {
        &[]
    }
}

/// Gives the names free that these took.
fn give_free(taken: &mut IndexSet<NameId>, bound: &[Binding]) {
    for binding in bound {
        if binding.is_first {
            taken.swap_remove(&binding.name);
        }
    }
}

/// Takes names again that were given free.
fn take_again(taken: &mut IndexSet<NameId>, bound: &[Binding]) -> Result<(), AllocError> {
    for binding in bound {
        taken.insert(binding.name)?;
    }
    Ok(())
}

/// Keeps the variables of a first alternative by their names, and counts these.
fn keep_first(
    first: &mut IndexMap<(PatternId, NameId), Kept>,
    number: PatternId,
    bound: &[Binding],
) -> Result<usize, AllocError> {
    let mut names: usize = 0;
    for binding in bound {
        let kept = Kept {
            binding: *binding,
            last: number,
        };
        if first.insert((number, binding.name), kept)?.is_none() {
            names = names.saturating_add(1);
        }
    }
    Ok(names)
}

/// Whether two variables are bound alike. Types are compared where both are known.
fn is_like(types: &Types, one: Binding, other: Binding) -> bool {
    let same_type = match (one.of, other.of) {
        (Some(one), Some(other)) => types.same(one, other),
        _ => true,
    };
    same_type && one.is_mutable == other.is_mutable
}

/// How many names there are among the variables of a further alternative, where the first one binds each of them alike.
fn count_alike(
    types: &Types,
    first: &mut IndexMap<(PatternId, NameId), Kept>,
    number: PatternId,
    alternative: PatternId,
    bound: &[Binding],
) -> Option<usize> {
    let mut names: usize = 0;
    for binding in bound {
        let kept = first.get_mut(&(number, binding.name))?;
        if !is_like(types, *binding, kept.binding) {
            return None;
        }
        if kept.last != alternative {
            kept.last = alternative;
            names = names.saturating_add(1);
        }
    }
    Some(names)
}

impl Bindings {
    /// No variables.
    pub fn new(alloc: Global) -> Bindings {
        Bindings {
            bound: Vec::new(alloc),
            taken: IndexSet::new(alloc),
            first: IndexMap::new(alloc),
        }
    }

    /// Binds a variable, and tells whether its name wasn't bound yet.
    pub fn bind(
        &mut self,
        name: NameId,
        is_mutable: bool,
        of: Option<TypeId>,
    ) -> Result<bool, AllocError> {
        let is_first = self.taken.insert(name)?;
        self.bound.push(Binding {
            name,
            is_mutable,
            of,
            is_first,
        })?;
        Ok(is_first)
    }

    /// A pattern with alternatives before its first one.
    pub fn alternatives(&self, number: PatternId) -> Alternatives {
        Alternatives {
            number,
            is_alike: true,
            before: self.bound.len(),
            first: None,
        }
    }

    /// Ends an alternative: what it bound is compared with what the first one bound, and can be bound again by the next.
    pub fn end_alternative(
        &mut self,
        types: &Types,
        alternatives: Alternatives,
        alternative: PatternId,
    ) -> Result<Alternatives, AllocError> {
        match alternatives.first {
            None => self.end_first(alternatives),
            Some(first) => Ok(self.end_further(types, alternatives, first, alternative)),
        }
    }

    /// Ends the first alternative.
    fn end_first(&mut self, alternatives: Alternatives) -> Result<Alternatives, AllocError> {
        let bound = behind(&self.bound, alternatives.before);
        let names = keep_first(&mut self.first, alternatives.number, bound)?;
        give_free(&mut self.taken, bound);
        Ok(Alternatives {
            first: Some(First {
                end: self.bound.len(),
                names,
            }),
            ..alternatives
        })
    }

    /// Ends a further alternative.
    fn end_further(
        &mut self,
        types: &Types,
        alternatives: Alternatives,
        first: First,
        alternative: PatternId,
    ) -> Alternatives {
        let bound = behind(&self.bound, first.end);
        let number = alternatives.number;
        let names = count_alike(types, &mut self.first, number, alternative, bound);
        give_free(&mut self.taken, bound);
        self.bound.truncate(first.end);
        Alternatives {
            is_alike: alternatives.is_alike && names == Some(first.names),
            ..alternatives
        }
    }

    /// Ends a pattern with alternatives: the variables of the first one are bound.
    pub fn end_alternatives(&mut self, alternatives: Alternatives) -> Result<(), AllocError> {
        take_again(&mut self.taken, behind(&self.bound, alternatives.before))
    }
}
