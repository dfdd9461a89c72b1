//! The entries of traits and impls.

use crate::builder::{Builder, number_behind, number_of};
use crate::duplicates::NameList;
use crate::signatures::add_member;
use ink_base::Rule;
use ink_forms::{Identifier, Implementation, MethodDeclaration, ParameterId, Trait, TraitMethod};
use ink_names::{
    Home, ImplEntry, ImplId, KindId, MethodNumber, TraitEntry, TraitId, TraitMethodEntry,
};
use std::alloc::{AllocError, Global};

/// The entry of a trait's method.
fn method_entry(alloc: Global, method: &TraitMethod) -> Result<TraitMethodEntry, AllocError> {
    let parameters = Vec::from_slice(alloc, &method.parameters)?;
    Ok(TraitMethodEntry {
        name: method.name.name,
        mode: method.mode,
        parameters,
        result: method.result,
    })
}

/// The entries of a trait's methods, whose names may not stand twice.
fn method_entries(
    builder: &mut Builder,
    methods: &[TraitMethod],
) -> Result<Vec<TraitMethodEntry>, AllocError> {
    let mut list = NameList::new(builder.alloc);
    let mut entries = Vec::new(builder.alloc);
    for method in methods {
        list.add(&mut builder.least, method.name.name, method.name.place)?;
        entries.push(method_entry(builder.alloc, method)?)?;
    }
    Ok(entries)
}

/// Gives the methods of a trait the next slots, by their names. Where two have one name, the last stands.
fn put_slots(
    builder: &mut Builder,
    number: TraitId,
    methods: &[TraitMethod],
) -> Result<(), AllocError> {
    for method in methods {
        let slot = builder.next_slot;
        builder.tables.put_slot(number, method.name.name, slot)?;
        builder.next_slot = number_behind(slot)?;
    }
    Ok(())
}

/// Adds the entry of a trait.
pub(crate) fn add_trait(builder: &mut Builder, declared: &Trait) -> Result<(), AllocError> {
    let methods = method_entries(builder, &declared.methods)?;
    let number = builder.tables.add_trait(TraitEntry {
        name: declared.name.name,
        first_slot: builder.next_slot,
        methods,
    })?;
    put_slots(builder, number, &declared.methods)
}

/// The type that an impl is for. One that is no type's name is told.
fn kind_of(builder: &mut Builder, name: Identifier) -> Option<KindId> {
    let kind = builder.known.kind(name.name);
    if kind.is_none() {
        builder.least.break_at(Rule::UnknownName, name.place);
    }
    kind
}

/// The trait that an impl names. One that is no trait's name is told.
fn trait_of(builder: &mut Builder, name: Option<Identifier>) -> Option<TraitId> {
    let name = name?;
    let number = builder.known.of_trait(name.name);
    if number.is_none() {
        builder.least.break_at(Rule::UnknownName, name.place);
    }
    number
}

/// The names of an impl's methods, which may not stand twice in its braces.
fn list_methods(builder: &mut Builder, methods: &[MethodDeclaration]) -> Result<(), AllocError> {
    let mut list = NameList::new(builder.alloc);
    for method in methods {
        list.add(&mut builder.least, method.name.name, method.name.place)?;
    }
    Ok(())
}

/// Adds the methods of an impl.
fn add_methods(
    builder: &mut Builder,
    kind: KindId,
    number: ImplId,
    methods: &[MethodDeclaration],
) -> Result<Vec<MethodNumber>, AllocError> {
    let mut list = NameList::new(builder.alloc);
    let mut numbers = Vec::new(builder.alloc);
    for method in methods {
        let home = Home::Impl { kind, number };
        numbers.push(add_member(builder, &mut list, kind, home, method)?)?;
    }
    Ok(numbers)
}

/// Adds the entry of an impl, and its methods. Where its type or its trait is unknown, it has no entry.
pub(crate) fn add_impl(builder: &mut Builder, declared: &Implementation) -> Result<(), AllocError> {
    let of_trait = trait_of(builder, declared.of_trait);
    let Some(kind) = kind_of(builder, declared.name) else {
        return list_methods(builder, &declared.methods);
    };
    let number = number_of(builder.tables.impls().len())?;
    let methods = add_methods(builder, kind, number, &declared.methods)?;
    builder.tables.add_impl(ImplEntry {
        place: declared.start,
        kind,
        of_trait,
        methods,
    })?;
    Ok(())
}
