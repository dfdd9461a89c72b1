//! Of what a member is looked up.

use ink_names::{KindId, MethodNumber};
use ink_types::{ArgumentList, Term, TypeId, Types};
use std::alloc::{AllocError, Global};

/// A value as it is seen, and where it stands.
#[derive(Clone, Copy)]
pub struct Receiver {
    pub of: TypeId,
    /// Whether it is the word `self`. In an async type only that reaches the fields, and the methods that are no messages.
    pub is_self: bool,
    /// The method in whose body it stands, by which type parameters are bounded.
    pub within: MethodNumber,
}

/// A type without the borrow or the `uni` that stands before it.
pub fn bare_type(types: &Types, of: TypeId) -> TypeId {
    match types.term(of) {
        Term::Ref(inner) | Term::Mut(inner) | Term::Uni(inner) => inner,
        _ => of,
    }
}

/// The kind of a type without its borrow or `uni`. A type parameter has none.
pub fn kind_of(types: &Types, of: TypeId) -> Option<KindId> {
    match types.term(bare_type(types, of)) {
        Term::Of { kind, .. } => Some(kind),
        _ => None,
    }
}

/// The arguments of a type without its borrow or `uni`.
pub fn arguments_of(alloc: Global, types: &Types, of: TypeId) -> Result<Vec<TypeId>, AllocError> {
    match types.term(bare_type(types, of)) {
        Term::Of { arguments, .. } => listed(alloc, types, arguments),
        _ => Ok(Vec::new(alloc)),
    }
}

/// The types of a list.
fn listed(alloc: Global, types: &Types, list: ArgumentList) -> Result<Vec<TypeId>, AllocError> {
    let mut all = Vec::new(alloc);
    let mut left = list;
    while let Some((first, rest)) = types.first_of(left) {
        all.push(first)?;
        left = rest;
    }
    Ok(all)
}
