//! The traits that bound type parameters, and their methods.

use crate::room::{Lookup, Member};
use ink_findings::Target;
use ink_forms::NameId;
use ink_names::{Home, KindId, MethodEntry, MethodNumber, Tables, TraitId, TypeParameterEntry};

/// The traits that bound a type parameter.
fn bounds(parameter: Option<&TypeParameterEntry>) -> &[TraitId] {
    match parameter {
        Some(parameter) => &parameter.bounds,
        None => &[],
    }
}

/// The traits that bound the type parameter of this number of a type.
pub fn kind_bounds(tables: &Tables, kind: KindId, number: u32) -> &[TraitId] {
    match tables.kind(kind) {
        Some(entry) => bounds(entry.parameters.get(number as usize)),
        None => &[],
    }
}

/// The traits that bound a type parameter that a method has of its type.
fn home_bounds(tables: &Tables, home: Home, number: u32) -> &[TraitId] {
    match home {
        Home::Module => &[],
        Home::Type(kind) => kind_bounds(tables, kind, number),
        Home::Impl { kind, .. } => kind_bounds(tables, kind, number),
    }
}

/// The traits that bound the type parameter of this number of a method, where those of its type are counted first.
fn entry_bounds<'a>(tables: &'a Tables, entry: &'a MethodEntry, number: u32) -> &'a [TraitId] {
    if number < entry.inherited {
        return home_bounds(tables, entry.home, number);
    }
    let own = number - entry.inherited;
    bounds(entry.type_parameters.get(own as usize))
}

/// The traits that bound the type parameter of this number in a method: one of its type, or one of its own.
pub fn bounds_of(tables: &Tables, method: MethodNumber, number: u32) -> &[TraitId] {
    match tables.method(method) {
        Some(entry) => entry_bounds(tables, entry, number),
        None => &[],
    }
}

/// What a name means among the methods of these traits.
pub(crate) fn bound_method(tables: &Tables, traits: &[TraitId], name: NameId) -> Lookup {
    let mut found = Lookup::Absent;
    for number in traits {
        if let Some(slot) = tables.slot(*number, name) {
            if !matches!(found, Lookup::Absent) {
                return Lookup::Several;
            }
            found = Lookup::Found(Member::Calls(Target::Bound(slot)));
        }
    }
    found
}
