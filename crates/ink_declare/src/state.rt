//! What names are looked up in, and what goes through the module while that is done.

use crate::known::Known;
use crate::scope::Scope;
use ink_base::Rule;
use ink_forms::{Arena, MethodId, NameId};
use ink_names::{KindId, Least, Resolution, Resolutions, Tables};
use std::alloc::Global;

/// What stays the same all the time.
#[derive(Clone, Copy)]
pub(crate) struct Room<'a> {
    pub alloc: Global,
    pub arena: &'a Arena,
    pub known: &'a Known,
    pub tables: &'a Tables,
}

/// What changes on the way: the least refusal so far, what names stand for so far, and what is in scope.
#[derive(Drop)]
pub(crate) struct State {
    pub least: Least,
    pub resolutions: Resolutions,
    pub variables: Scope,
    /// The type parameters of the method itself.
    pub parameters: Scope,
}

/// Whose braces a name stands in.
#[derive(Clone, Copy)]
pub(crate) enum Owner {
    /// No type's.
    Module,
    /// A type's, or those of an impl for it.
    Kind(KindId),
    Trait,
}

/// Where a name stands: in whose braces, and in which method that has a `self`.
#[derive(Clone, Copy)]
pub(crate) struct Within {
    pub owner: Owner,
    pub receiver: Option<MethodId>,
}

impl State {
    /// Tells that nothing of the name at this byte is in scope.
    pub fn break_unknown(&mut self, place: u32) {
        self.least.break_at(Rule::UnknownName, place);
    }

    /// Puts what the name of a node stands for. Where it is nothing, the rule is broken at this byte.
    pub fn resolve(&mut self, node: u32, place: u32, found: Option<Resolution>) {
        match found {
            Some(of) => self.resolutions.put(node, of),
            None => self.break_unknown(place),
        }
    }

    /// The type parameter that a name stands for in these braces: one of the method, or one of the type.
    pub fn parameter(&self, known: &Known, owner: Owner, name: NameId) -> Option<u32> {
        if let Some(number) = self.parameters.find(name) {
            return Some(number);
        }
        match owner {
            Owner::Kind(kind) => known.parameters.get(kind, name),
            _ => None,
        }
    }
}
