//! The types of all that a module declares: of fields, parameters and results.
ghost use Rattle.std.specs.Prelude.{◌≡◌};

use crate::own::number_of;
use crate::room::{Owner, Room, Site, State};
use crate::rules::is_sent;
use crate::written::written_type;
use ink_forms::{ParameterId, WrittenTypeId};
use ink_names::{
    ConstructorEntry, FieldEntry, FieldType, KindEntry, MethodEntry, TraitEntry, TraitMethodEntry,
};
use std::alloc::AllocError;

/// Where a type stands that such an owner declares.
fn declaration_of(owner: Owner) -> Site {
    Site {
        owner,
        is_in_body: false,
    }
}

/// The types of fields.
fn field_types(
    room: &Room,
    site: Site,
    state: &mut State,
    fields: &[FieldEntry],
) -> Result<(), AllocError>
    ensures kinds { state.new.types.kinds ≡ state.old.types.kinds }
{
    for field in fields {
        if let FieldType::Written(written) = field.of {
            written_type(room, site, state, written)?;
        }
    }
    Ok(())
}

/// The types of what constructors hold.
fn constructor_types(
    room: &Room,
    site: Site,
    state: &mut State,
    constructors: &[ConstructorEntry],
) -> Result<(), AllocError>
    ensures kinds { state.new.types.kinds ≡ state.old.types.kinds }
{
    for constructor in constructors {
        field_types(room, site, state, &constructor.fields)?;
    }
    Ok(())
}

/// The types of what types hold.
fn kind_types(room: &Room, state: &mut State, kinds: &[KindEntry]) -> Result<(), AllocError>
    ensures kinds { state.new.types.kinds ≡ state.old.types.kinds }
{
    for (index, entry) in kinds.iter().enumerate() {
        let kind = number_of(index)?;
        let site = declaration_of(Owner::Kind(kind));
        constructor_types(room, site, state, &entry.constructors)?;
    }
    Ok(())
}

/// The types of parameters.
fn parameter_types(
    room: &Room,
    site: Site,
    state: &mut State,
    parameters: &[ParameterId],
) -> Result<(), AllocError>
    ensures kinds { state.new.types.kinds ≡ state.old.types.kinds }
{
    for parameter in parameters {
        let annotation = room.arena.parameter(*parameter).parameter.annotation;
        written_type(room, site, state, annotation)?;
    }
    Ok(())
}

/// The type of a result, where one is written.
fn result_type(
    room: &Room,
    site: Site,
    state: &mut State,
    outcome: Option<WrittenTypeId>,
) -> Result<(), AllocError>
    ensures kinds { state.new.types.kinds ≡ state.old.types.kinds }
{
    if let Some(written) = outcome {
        written_type(room, site, state, written)?;
    }
    Ok(())
}

/// The types of parameters of a method that is called by messages, which are sendable.
fn message_types(
    room: &Room,
    site: Site,
    state: &mut State,
    parameters: &[ParameterId],
) -> Result<(), AllocError>
    ensures kinds { state.new.types.kinds ≡ state.old.types.kinds }
{
    for parameter in parameters {
        let annotation = room.arena.parameter(*parameter).parameter.annotation;
        let judged = written_type(room, site, state, annotation)?;
        let start = room.arena.written(annotation).start;
        is_sent(&state.types, &mut state.least, start, judged.of);
    }
    Ok(())
}

/// The types of a method's parameters and its result.
fn method_type(
    room: &Room,
    site: Site,
    state: &mut State,
    entry: &MethodEntry,
) -> Result<(), AllocError>
    ensures kinds { state.new.types.kinds ≡ state.old.types.kinds }
{
    let method = room.arena.method(entry.node).method;
    let parameters = room.arena.list(method.parameters);
    if entry.is_async {
        message_types(room, site, state, parameters)?;
    } else {
        parameter_types(room, site, state, parameters)?;
    }
    result_type(room, site, state, entry.result)
}

/// The types of methods.
fn method_types(room: &Room, state: &mut State, methods: &[MethodEntry]) -> Result<(), AllocError>
    ensures kinds { state.new.types.kinds ≡ state.old.types.kinds }
{
    for (index, entry) in methods.iter().enumerate() {
        let method = number_of(index)?;
        let site = declaration_of(Owner::Method(method));
        method_type(room, site, state, entry)?;
    }
    Ok(())
}

/// The types of a trait's methods.
fn slot_types(
    room: &Room,
    site: Site,
    state: &mut State,
    methods: &[TraitMethodEntry],
) -> Result<(), AllocError>
    ensures kinds { state.new.types.kinds ≡ state.old.types.kinds }
{
    for entry in methods {
        parameter_types(room, site, state, &entry.parameters)?;
        result_type(room, site, state, entry.result)?;
    }
    Ok(())
}

/// The types of the methods of traits.
fn trait_types(room: &Room, state: &mut State, traits: &[TraitEntry]) -> Result<(), AllocError>
    ensures kinds { state.new.types.kinds ≡ state.old.types.kinds }
{
    for (index, entry) in traits.iter().enumerate() {
        let number = number_of(index)?;
        let site = declaration_of(Owner::Trait(number));
        slot_types(room, site, state, &entry.methods)?;
    }
    Ok(())
}

/// The types of all that a module declares, by the rules on how types are written and on what goes with a message.
pub fn signature_types(room: &Room, state: &mut State) -> Result<(), AllocError>
    ensures kinds { state.new.types.kinds ≡ state.old.types.kinds }
{
    kind_types(room, state, room.tables.kinds())?;
    trait_types(room, state, room.tables.traits())?;
    method_types(room, state, room.tables.methods())
}
