//! The methods of impls at the slots of their traits.

use crate::compared::{Compared, fits_slot};
use ink_base::Rule;
use ink_names::{ImplEntry, Impls, KindId, Least, MethodNumber, TraitId};
use ink_types::TypeId;
use std::alloc::{AllocError, Global};

/// What changes on the way: the least refusal so far, and the methods at slots so far.
#[derive(Drop)]
pub(crate) struct Filling {
    pub least: Least,
    pub impls: Impls,
}

/// Puts a method of an impl at its slot, and tells whether it has one. A method that isn't the trait's breaks the rule, and
/// so does one with another signature.
fn fill(
    room: Compared,
    filling: &mut Filling,
    own: &mut Vec<Option<TypeId>>,
    kind: KindId,
    of_trait: TraitId,
    number: MethodNumber,
) -> Result<bool, AllocError> {
    let Some(given) = room.tables.method(number) else {
        return Ok(false);
    };
    let place = room.arena.method(given.node).place;
    let Some(slot) = room.tables.slot(of_trait, given.name) else {
        filling.least.break_at(Rule::WrongSignature, place);
        return Ok(false);
    };
    if !fits_slot(room, own, of_trait, slot, given) {
        filling.least.break_at(Rule::WrongSignature, place);
    }
    filling.impls.put(kind, slot, number)?;
    Ok(true)
}

/// Puts the methods of an impl at their slots, and counts those that have one.
fn fill_all(
    room: Compared,
    filling: &mut Filling,
    own: &mut Vec<Option<TypeId>>,
    kind: KindId,
    of_trait: TraitId,
    methods: &[MethodNumber],
) -> Result<usize, AllocError> {
    let mut count: usize = 0;
    for method in methods {
        if fill(room, filling, own, kind, of_trait, *method)? {
            count = count.saturating_add(1);
        }
    }
    Ok(count)
}

/// How many methods a trait has.
fn method_count(room: Compared, of_trait: TraitId) -> usize {
    match room.tables.trait_entry(of_trait) {
        Some(entry) => entry.methods.len(),
        None => 0,
    }
}

/// Puts the methods of an impl of a trait at their slots. An impl that lacks one of the trait's breaks the rule: one with
/// fewer methods of the trait than the trait has, since no name stands twice in either.
fn fill_impl(
    alloc: Global,
    room: Compared,
    filling: &mut Filling,
    entry: &ImplEntry,
    of_trait: TraitId,
) -> Result<(), AllocError> {
    let mut own = Vec::new(alloc);
    own.push(room.own_types.get(entry.kind as usize).copied())?;
    let count = fill_all(
        room,
        filling,
        &mut own,
        entry.kind,
        of_trait,
        &entry.methods,
    )?;
    if count < method_count(room, of_trait) {
        filling.least.break_at(Rule::MissingMethod, entry.place);
    }
    Ok(())
}

/// Puts the methods of all impls of traits at their slots.
pub(crate) fn fill_impls(
    alloc: Global,
    room: Compared,
    filling: &mut Filling,
    entries: &[ImplEntry],
) -> Result<(), AllocError> {
    for entry in entries {
        if let Some(of_trait) = entry.of_trait {
            fill_impl(alloc, room, filling, entry, of_trait)?;
        }
    }
    Ok(())
}
