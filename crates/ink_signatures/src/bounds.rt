//! Which types have which traits.

use crate::room::{Owner, Room};
use ink_names::{Home, KindId, MethodEntry, Tables, TraitId, TypeParameterEntry};
use ink_types::{Term, TypeId, Types};

/// Whether a type parameter is bounded by a trait.
fn is_bounded(parameter: Option<&TypeParameterEntry>, of_trait: TraitId) -> bool {
    match parameter {
        Some(parameter) => parameter.bounds.contains(&of_trait),
        None => false,
    }
}

/// Whether a type bounds its parameter of this number by a trait.
fn kind_bounds(tables: &Tables, kind: KindId, number: u32, of_trait: TraitId) -> bool {
    match tables.kind(kind) {
        Some(entry) => is_bounded(entry.parameters.get(number as usize), of_trait),
        None => false,
    }
}

/// Whether the type of a method bounds its parameter of this number by a trait.
fn home_bounds(tables: &Tables, home: Home, number: u32, of_trait: TraitId) -> bool {
    match home {
        Home::Module => false,
        Home::Type(kind) => kind_bounds(tables, kind, number, of_trait),
        Home::Impl { kind, .. } => kind_bounds(tables, kind, number, of_trait),
    }
}

/// Whether a method, or its type, bounds the parameter of this number by a trait. Those of the type are counted first.
fn method_bounds(tables: &Tables, entry: &MethodEntry, number: u32, of_trait: TraitId) -> bool {
    if number < entry.inherited {
        return home_bounds(tables, entry.home, number, of_trait);
    }
    let own = number - entry.inherited;
    is_bounded(entry.type_parameters.get(own as usize), of_trait)
}

/// Whether the type parameter of this number has a trait. `Self` has the trait in which it stands.
fn parameter_has(tables: &Tables, owner: Owner, number: u32, of_trait: TraitId) -> bool {
    match owner {
        Owner::Kind(kind) => kind_bounds(tables, kind, number, of_trait),
        Owner::Method(method) => match tables.method(method) {
            Some(entry) => method_bounds(tables, entry, number, of_trait),
            None => false,
        },
        Owner::Trait(trait_number) => number == 0 && trait_number == of_trait,
    }
}

/// Whether a type has a trait: a declared one by an impl, and a type parameter by its bounds. No borrow and no `uni` has
/// one.
fn has_trait(room: &Room, owner: Owner, types: &Types, of: TypeId, of_trait: TraitId) -> bool {
    match types.term(of) {
        Term::Parameter(number) => parameter_has(room.tables, owner, number, of_trait),
        Term::Of { kind, .. } => room.impls.has(kind, of_trait),
        _ => false,
    }
}

/// Whether a type has all these traits.
pub fn meets(room: &Room, owner: Owner, types: &Types, of: TypeId, bounds: &[TraitId]) -> bool {
    for bound in bounds {
        if !has_trait(room, owner, types, of, *bound) {
            return false;
        }
    }
    true
}
