//! The names in declarations: those of written types, of parameters and of bodies.
ghost use Rattle.ink_forms.specs.Views as view;

use crate::bodies::walk;
use crate::duplicates::NameList;
use crate::state::{Owner, Room, State, Within};
use crate::written::{written_list, written_names};
use ink_forms::{
    Declaration, Implementation, Member, MethodDeclaration, MethodId, Mode, ParameterId, Trait,
    TraitMethod, TypeDeclaration, TypeParameter, WrittenTypeId,
};
use ink_names::KindId;
use std::alloc::AllocError;

/// The names of a result, where one is written.
fn result(room: &Room, owner: Owner, state: &mut State, written: Option<WrittenTypeId>) {
    if let Some(written) = written {
        written_names(room, owner, state, written);
    }
}

/// The names of parameters, each of another variable. They are in scope behind this.
fn parameters(
    room: &Room,
    owner: Owner,
    state: &mut State,
    numbers: &[ParameterId],
) -> Result<(), AllocError> {
    let mut list = NameList::new(room.alloc);
    for number in numbers {
        let node = room.arena.parameter(*number);
        let name = node.parameter.name;
        list.add(&mut state.least, name, node.start)?;
        written_names(room, owner, state, node.parameter.annotation);
        state.variables.declare(name, *number)?;
    }
    Ok(())
}

/// How many type parameters come before those of a method.
fn inherited(room: &Room, owner: Owner) -> u32 {
    let Owner::Kind(kind) = owner else {
        return 0;
    };
    match room.tables.kind(kind) {
        Some(entry) => entry.parameters.len().min(u32::MAX as usize) as u32,
        None => 0,
    }
}

/// Brings the type parameters of a method into scope.
fn type_parameters(
    room: &Room,
    owner: Owner,
    state: &mut State,
    written: &[TypeParameter],
) -> Result<(), AllocError> {
    let mut number = inherited(room, owner);
    for parameter in written {
        state.parameters.declare(parameter.name.name, number)?;
        number = number.saturating_add(1);
    }
    Ok(())
}

/// The `self` of a method: there is none outside braces, and none in a static method.
fn receiver_of(owner: Owner, method: MethodId, mode: Mode) -> Option<MethodId> {
    match (owner, mode) {
        (Owner::Module, _) => None,
        (_, Mode::Static) => None,
        _ => Some(method),
    }
}

/// The names of a method, which go out of scope at its end.
fn method(
    room: &Room,
    owner: Owner,
    state: &mut State,
    declared: &MethodDeclaration,
) -> Result<(), AllocError> {
    let node = room.arena.method(declared.method).method;
    type_parameters(room, owner, state, &declared.type_parameters)?;
    parameters(room, owner, state, room.arena.list(node.parameters))?;
    result(room, owner, state, declared.result);
    let receiver = receiver_of(owner, declared.method, node.mode);
    walk(room, Within { owner, receiver }, state, node.body)?;
    state.variables.end(0);
    state.parameters.end(0);
    Ok(())
}

/// The names of some methods.
fn methods(
    room: &Room,
    owner: Owner,
    state: &mut State,
    declared: &[MethodDeclaration],
) -> Result<(), AllocError> {
    for one in declared {
        method(room, owner, state, one)?;
    }
    Ok(())
}

/// The names of a type's members.
fn members(
    room: &Room,
    kind: KindId,
    state: &mut State,
    declared: &TypeDeclaration,
) -> Result<(), AllocError> {
    let owner = Owner::Kind(kind);
    for member in &declared.members {
        match member {
            Member::Field(field) => written_names(room, owner, state, field.annotation),
            Member::Constructor(made) => written_list(room, owner, state, &made.types),
            Member::Method(one) => method(room, owner, state, one)?,
        }
    }
    Ok(())
}

/// The names of a trait's method.
fn trait_method(room: &Room, state: &mut State, declared: &TraitMethod) -> Result<(), AllocError> {
    parameters(room, Owner::Trait, state, &declared.parameters)?;
    result(room, Owner::Trait, state, declared.result);
    state.variables.end(0);
    Ok(())
}

/// The names of a trait.
fn trait_methods(room: &Room, state: &mut State, declared: &Trait) -> Result<(), AllocError> {
    for one in &declared.methods {
        trait_method(room, state, one)?;
    }
    Ok(())
}

/// The names of an impl. Where its type is unknown, its braces are no type's.
fn implementation(
    room: &Room,
    state: &mut State,
    declared: &Implementation,
) -> Result<(), AllocError> {
    let owner = match room.known.kind(declared.name.name) {
        Some(kind) => Owner::Kind(kind),
        None => Owner::Module,
    };
    methods(room, owner, state, &declared.methods)
}

/// The names of all declarations. The declared types have the kinds from this one on.
pub(crate) fn resolve_declarations(
    room: &Room,
    first: KindId,
    state: &mut State,
    declarations: &[Declaration],
) -> Result<(), AllocError> {
    let mut kind = first;
    for declaration in declarations {
        match declaration {
            Declaration::Type(declared) => {
                members(room, kind, state, declared)?;
                kind = kind.saturating_add(1);
            }
            Declaration::Trait(declared) => trait_methods(room, state, declared)?,
            Declaration::Implementation(declared) => implementation(room, state, declared)?,
            Declaration::Method(declared) => method(room, Owner::Module, state, declared)?,
        }
    }
    Ok(())
}
