//! Whether a type has parameters for which nothing is found.

use ink_types::{ArgumentList, Term, TypeId, Types};

/// Whether nothing is found for a parameter. One that has no place is itself.
fn is_parameter_open(found: &[Option<TypeId>], number: u32) -> bool {
    match found.get(number as usize) {
        Some(place) => place.is_none(),
        None => false,
    }
}

/// Whether a type has a parameter for which nothing is found.
#[cycle(mentions)]
pub(crate) fn is_open(types: &Types, found: &[Option<TypeId>], t: TypeId) -> bool {
    match types.term(t) {
        Term::Parameter(number) => is_parameter_open(found, number),
        Term::Of { arguments, .. } => is_any_open(types, found, arguments),
        Term::Ref(inner) | Term::Mut(inner) | Term::Uni(inner) => is_open(types, found, inner),
    }
}

/// Whether one of some types has a parameter for which nothing is found.
#[cycle(mentions)]
fn is_any_open(types: &Types, found: &[Option<TypeId>], list: ArgumentList) -> bool {
    match types.first_of(list) {
        Some((first, rest)) => is_open(types, found, first) || is_any_open(types, found, rest),
        None => false,
    }
}
