//! The signatures of what is called.
ghost use Rattle.std.specs.Prelude.{◌≡◌};

use crate::mode::slot_entry;
use crate::receiver::{arguments_of, bare_type};
use crate::room::MemberRoom;
use crate::rows::{mode_of_row, row_of};
use ink_base::Kind;
use ink_findings::Target;
use ink_forms::{Mode, ParameterId, WrittenTypeId};
use ink_names::{MethodEntry, MethodNumber, TraitMethodEntry};
use ink_prims::Row;
use ink_row_types::slot_type;
use ink_signatures::Signatures;
use ink_types::{NEVER, NIL, TypeId, Types};
use std::alloc::AllocError;

/// What is called, over its own type parameters, of which those of its type come first. `Self` of a trait is the first of
/// a method of that trait, and what the type of the receiver is given that of a built-in method.
#[derive(Clone, Copy)]
pub struct Callee {
    pub mode: Mode,
    /// Whether a call is a message.
    pub is_async: bool,
    /// How many values it takes beside its receiver.
    pub parameters: usize,
    pub result: TypeId,
    /// How many of its type parameters the receiver gives. A static method and one of the module have no receiver.
    pub inherited: u32,
    /// How many type parameters it has, with the inherited ones.
    pub type_parameters: u32,
}

/// A number of type parameters. What doesn't fit is want of numbers.
fn number_of(count: usize) -> Result<u32, AllocError> {
    if count >= u32::MAX as usize {
        return Err(AllocError);
    }
    Ok(count as u32)
}

/// A result as it is written, or Nil where none is.
fn result_type(
    signatures: &Signatures,
    types: &mut Types,
    outcome: Option<WrittenTypeId>,
) -> Result<TypeId, AllocError>
    ensures kinds { types.new.kinds ≡ types.old.kinds }
{
    match outcome {
        None => types.of(NIL, &[]),
        Some(written) => match signatures.type_of(written) {
            Some(of) => Ok(of),
            None => types.of(NEVER, &[]),
        },
    }
}

/// How many of its type parameters a method has of its receiver.
fn given_count(mode: Mode, count: u32) -> u32 {
    match mode {
        Mode::Static => 0,
        _ => count,
    }
}

/// A method with a body.
fn method_callee(
    room: &MemberRoom,
    signatures: &Signatures,
    types: &mut Types,
    entry: &MethodEntry,
) -> Result<Callee, AllocError>
    ensures kinds { types.new.kinds ≡ types.old.kinds }
{
    let parameters = room.arena.method(entry.node).method.parameters;
    let own = number_of(entry.type_parameters.len())?;
    let Some(type_parameters) = entry.inherited.checked_add(own) else {
        return Err(AllocError);
    };
    Ok(Callee {
        mode: entry.mode,
        is_async: entry.is_async,
        parameters: room.arena.list(parameters).len(),
        result: result_type(signatures, types, entry.result)?,
        inherited: given_count(entry.mode, entry.inherited),
        type_parameters,
    })
}

/// A method of a trait.
fn trait_callee(
    signatures: &Signatures,
    types: &mut Types,
    entry: &TraitMethodEntry,
) -> Result<Callee, AllocError>
    ensures kinds { types.new.kinds ≡ types.old.kinds }
{
    Ok(Callee {
        mode: entry.mode,
        is_async: false,
        parameters: entry.parameters.len(),
        result: result_type(signatures, types, entry.result)?,
        inherited: 1,
        type_parameters: 1,
    })
}

/// How many arguments the type has that has a row.
fn row_arity(kind: Kind) -> u32 {
    match kind {
        Kind::Array | Kind::Option | Kind::Future | Kind::Promise => 1,
        Kind::Int | Kind::Bool | Kind::Str | Kind::Stdout => 0,
    }
}

/// How many operands a row has.
fn operand_count(row: &Row) -> usize {
    match (row.operands[0], row.operands[1]) {
        (None, _) => 0,
        (Some(_), None) => 1,
        (Some(_), Some(_)) => 2,
    }
}

/// A built-in method.
fn row_callee(types: &mut Types, row: &Row) -> Result<Callee, AllocError>
    ensures kinds { types.new.kinds ≡ types.old.kinds }
{
    let mode = mode_of_row(row.mode);
    let type_parameters = row_arity(row.receiver);
    Ok(Callee {
        mode,
        is_async: false,
        parameters: operand_count(row),
        result: slot_type(types, row.result)?,
        inherited: given_count(mode, type_parameters),
        type_parameters,
    })
}

/// What stands for a method that isn't there.
fn no_callee(types: &mut Types) -> Result<Callee, AllocError>
    ensures kinds { types.new.kinds ≡ types.old.kinds }
{
    Ok(Callee {
        mode: Mode::Plain,
        is_async: false,
        parameters: 0,
        result: types.of(NEVER, &[])?,
        inherited: 0,
        type_parameters: 0,
    })
}

/// The signature of what is called. A number that is no method's gives one without parameters that never returns.
pub fn callee_of(
    room: &MemberRoom,
    signatures: &Signatures,
    types: &mut Types,
    target: Target,
) -> Result<Callee, AllocError>
    ensures kinds { types.new.kinds ≡ types.old.kinds }
{
    match target {
        Target::Method(number) => match room.tables.method(number) {
            Some(entry) => method_callee(room, signatures, types, entry),
            None => no_callee(types),
        },
        Target::Bound(slot) => match slot_entry(room.tables, slot) {
            Some(entry) => trait_callee(signatures, types, entry),
            None => no_callee(types),
        },
        Target::Row(number) => match row_of(number) {
            Some(row) => row_callee(types, &row),
            None => no_callee(types),
        },
    }
}

/// The written type of a parameter among these.
fn annotation_among(
    room: &MemberRoom,
    parameters: &[ParameterId],
    index: usize,
) -> Option<WrittenTypeId> {
    let parameter = parameters.get(index)?;
    Some(room.arena.parameter(*parameter).parameter.annotation)
}

/// The written type of a method's parameter.
fn annotation_of(room: &MemberRoom, number: MethodNumber, index: usize) -> Option<WrittenTypeId> {
    let entry = room.tables.method(number)?;
    let parameters = room.arena.method(entry.node).method.parameters;
    annotation_among(room, room.arena.list(parameters), index)
}

/// The type of a row's operand.
fn operand_type(types: &mut Types, row: &Row, index: usize) -> Result<Option<TypeId>, AllocError>
    ensures kinds { types.new.kinds ≡ types.old.kinds }
{
    let slot = match index {
        0 => row.operands[0],
        1 => row.operands[1],
        _ => None,
    };
    match slot {
        Some(slot) => Ok(Some(slot_type(types, slot)?)),
        None => Ok(None),
    }
}

/// The type of the parameter at this index, from 0, over the type parameters of what is called. There is none where it has
/// no such parameter.
pub fn parameter_type(
    room: &MemberRoom,
    signatures: &Signatures,
    types: &mut Types,
    target: Target,
    index: usize,
) -> Result<Option<TypeId>, AllocError>
    ensures kinds { types.new.kinds ≡ types.old.kinds }
{
    let written = match target {
        Target::Method(number) => annotation_of(room, number, index),
        Target::Bound(slot) => match slot_entry(room.tables, slot) {
            Some(entry) => annotation_among(room, &entry.parameters, index),
            None => None,
        },
        Target::Row(number) => match row_of(number) {
            Some(row) => return operand_type(types, &row, index),
            None => None,
        },
    };
    match written {
        Some(written) => Ok(signatures.type_of(written)),
        None => Ok(None),
    }
}

/// What a receiver of this type gives for the inherited type parameters of what is called on it: the arguments of its type,
/// or its type itself for `Self` of a trait.
pub fn given_arguments(
    room: &MemberRoom,
    types: &Types,
    target: Target,
    receiver: TypeId,
) -> Result<Vec<TypeId>, AllocError> {
    match target {
        Target::Bound(_) => {
            let mut own = Vec::new(room.alloc);
            own.push(bare_type(types, receiver))?;
            Ok(own)
        }
        _ => arguments_of(room.alloc, types, receiver),
    }
}
