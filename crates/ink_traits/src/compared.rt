//! Signatures of methods of impls against those of traits.

use ink_forms::{Arena, Mode, ParameterId, WrittenTypeId};
use ink_names::{MethodEntry, SlotNumber, Tables, TraitId, TraitMethodEntry};
use ink_signatures::Signatures;
use ink_types::{TypeId, Types};

/// What signatures are compared by.
#[derive(Clone, Copy)]
pub(crate) struct Compared<'a> {
    pub arena: &'a Arena,
    pub tables: &'a Tables,
    pub types: &'a Types,
    pub signatures: &'a Signatures,
    /// Each kind as a type with its own parameters.
    pub own_types: &'a [TypeId],
    /// What a result is that isn't written.
    pub nil: TypeId,
}

/// Whether two methods are of one kind.
fn is_same_mode(first: Mode, second: Mode) -> bool {
    match (first, second) {
        (Mode::Plain, Mode::Plain) => true,
        (Mode::Mut, Mode::Mut) => true,
        (Mode::Move, Mode::Move) => true,
        (Mode::Static, Mode::Static) => true,
        _ => false,
    }
}

/// Whether a type of a trait is one of an impl, where `Self` stands for the one type in `own`.
fn is_same_type(
    room: Compared,
    own: &mut Vec<Option<TypeId>>,
    declared: Option<TypeId>,
    given: Option<TypeId>,
) -> bool {
    match (declared, given) {
        (Some(declared), Some(given)) => room.types.match_one_way(declared, given, own),
        _ => false,
    }
}

/// The type of a parameter.
fn parameter_type(room: Compared, parameter: ParameterId) -> Option<TypeId> {
    let annotation = room.arena.parameter(parameter).parameter.annotation;
    room.signatures.type_of(annotation)
}

/// The type of a result, which is Nil where none is written.
fn result_type(room: Compared, outcome: Option<WrittenTypeId>) -> Option<TypeId> {
    match outcome {
        Some(written) => room.signatures.type_of(written),
        None => Some(room.nil),
    }
}

/// Whether the types of these parameters are the same, one by one.
fn are_same_types(
    room: Compared,
    own: &mut Vec<Option<TypeId>>,
    declared: &[ParameterId],
    given: &[ParameterId],
) -> bool {
    for (declared, given) in declared.iter().zip(given) {
        let declared = parameter_type(room, *declared);
        let given = parameter_type(room, *given);
        if !is_same_type(room, own, declared, given) {
            return false;
        }
    }
    true
}

/// Whether the parameters are the same in number and types.
fn are_same_parameters(
    room: Compared,
    own: &mut Vec<Option<TypeId>>,
    declared: &TraitMethodEntry,
    given: &MethodEntry,
) -> bool {
    let parameters = room
        .arena
        .list(room.arena.method(given.node).method.parameters);
    declared.parameters.len() == parameters.len()
        && are_same_types(room, own, &declared.parameters, parameters)
}

/// Whether a method of an impl has the signature that its trait declares: the kind, the parameters and the result. One
/// with type parameters has none that a trait declares.
fn is_same_signature(
    room: Compared,
    own: &mut Vec<Option<TypeId>>,
    declared: &TraitMethodEntry,
    given: &MethodEntry,
) -> bool {
    !given.is_async
        && is_same_mode(declared.mode, given.mode)
        && given.type_parameters.is_empty()
        && are_same_parameters(room, own, declared, given)
        && is_same_type(
            room,
            own,
            result_type(room, declared.result),
            result_type(room, given.result),
        )
}

/// The method of a trait at a slot.
fn declared_at(tables: &Tables, of_trait: TraitId, slot: SlotNumber) -> Option<&TraitMethodEntry> {
    let entry = tables.trait_entry(of_trait)?;
    let index = slot.checked_sub(entry.first_slot)?;
    entry.methods.get(index as usize)
}

/// Whether a method of an impl has the signature that stands at a slot of its trait.
pub(crate) fn fits_slot(
    room: Compared,
    own: &mut Vec<Option<TypeId>>,
    of_trait: TraitId,
    slot: SlotNumber,
    given: &MethodEntry,
) -> bool {
    match declared_at(room.tables, of_trait, slot) {
        Some(declared) => is_same_signature(room, own, declared, given),
        None => false,
    }
}
