//! Fields and their types.
ghost use Rattle.std.specs.Prelude.{◌≡◌};

use crate::receiver::{Receiver, arguments_of};
use crate::room::{Lookup, Member, MemberRoom};
use ink_names::{FieldType, KindId};
use ink_signatures::Signatures;
use ink_types::{TUPLE2, TUPLE3, TypeId, Types};
use std::alloc::AllocError;

/// The type of a field, in which the type parameters are those of its type.
fn declared(
    signatures: &Signatures,
    types: &mut Types,
    of: FieldType,
) -> Result<Option<TypeId>, AllocError>
    ensures kinds { types.new.kinds ≡ types.old.kinds }
{
    match of {
        FieldType::Written(written) => Ok(signatures.type_of(written)),
        FieldType::Parameter(number) => Ok(Some(types.parameter(number)?)),
    }
}

/// The written or built-in type of the field at this place of a constructor.
fn field_at(room: &MemberRoom, kind: KindId, constructor: u32, place: usize) -> Option<FieldType> {
    let entry = room.tables.kind(kind)?;
    let made = entry.constructors.get(constructor as usize)?;
    let field = made.fields.get(place)?;
    Some(field.of)
}

/// The type of the field at this place of a constructor, in which the type parameters are those of its type. There is none
/// where there is no such field.
pub(crate) fn declared_field(
    room: &MemberRoom,
    signatures: &Signatures,
    types: &mut Types,
    kind: KindId,
    constructor: u32,
    place: usize,
) -> Result<Option<TypeId>, AllocError>
    ensures kinds { types.new.kinds ≡ types.old.kinds }
{
    match field_at(room, kind, constructor, place) {
        Some(of) => declared(signatures, types, of),
        None => Ok(None),
    }
}

/// A field at this place of a value of this type, in which the arguments of the type are put in.
pub(crate) fn field_of(
    room: &MemberRoom,
    signatures: &Signatures,
    types: &mut Types,
    base: TypeId,
    kind: KindId,
    index: u32,
) -> Result<Lookup, AllocError>
    ensures kinds { types.new.kinds ≡ types.old.kinds }
{
    let Some(of) = declared_field(room, signatures, types, kind, 0, index as usize)? else {
        return Ok(Lookup::Absent);
    };
    let arguments = arguments_of(room.alloc, types, base)?;
    let of = types.substitute(of, &arguments)?;
    Ok(Lookup::Found(Member::Field { index, of }))
}

/// Whether types of a kind are tuples.
fn is_tuple(kind: KindId) -> bool {
    kind == TUPLE2 || kind == TUPLE3
}

/// The place of a part of a tuple, by its number.
fn part_place(number: i64) -> Option<u32> {
    match number {
        0 => Some(0),
        1 => Some(1),
        2 => Some(2),
        _ => None,
    }
}

/// The part of a tuple of this number, which has to be one of its parts.
pub(crate) fn part_of(types: &Types, bare: TypeId, kind: KindId, number: i64) -> Option<Member> {
    if !is_tuple(kind) {
        return None;
    }
    let index = part_place(number)?;
    let of = types.argument(bare, index as usize)?;
    Some(Member::Field { index, of })
}

/// Whether a value reaches the fields of its type, and all of its methods: always but where it is a process that isn't
/// written as `self`.
pub(crate) fn reaches_state(types: &Types, receiver: Receiver, kind: KindId) -> bool {
    receiver.is_self || !types.is_async(kind)
}
