//! Which constructor a pattern is of, and the types of its parts.
ghost use Rattle.std.specs.Prelude.{◌≡◌};

use crate::matched::Matched;
use ink_forms::{Literal, Made, PatternId, TypeForm};
use ink_members::{MemberRoom, arguments_of, constructed_field, field_place};
use ink_names::{KindId, KindName, Resolution, Tables};
use ink_signatures::State;
use ink_types::{BOOL, INT, NIL, STRING, TypeId, Types};
use std::alloc::AllocError;

/// What a pattern goes into: a constructor of a kind, the arguments of the type, and how its parts are seen.
#[derive(Drop)]
pub(crate) struct Opened {
    pub kind: KindId,
    pub constructor: u32,
    pub arguments: Vec<TypeId>,
    pub matched: Matched,
}

/// The kind of a literal.
fn literal_kind(literal: Literal) -> KindId {
    match literal {
        Literal::Int(_) => INT,
        Literal::Bool(_) => BOOL,
        Literal::Nil => NIL,
        Literal::Text(_) => STRING,
    }
}

/// Whether a literal is one of the type that it is matched with.
pub(crate) fn fits_literal(types: &Types, matched: Matched, literal: Literal) -> bool {
    matched.opened(types).kind(types) == Some(literal_kind(literal))
}

/// The place of a constructor in a kind: by its name in an enum of the module, and else as it was resolved.
fn constructor_place(
    room: &MemberRoom,
    number: PatternId,
    made: Made,
    kind: KindId,
) -> Option<u32> {
    if let Made::Named(name) = made {
        return room.tables.constructor(kind, name);
    }
    match room.resolutions.get(number) {
        Resolution::Constructor { kind: of, index } if of == kind => Some(index),
        _ => None,
    }
}

/// How many parts a constructor has.
fn part_count(tables: &Tables, kind: KindId, constructor: u32) -> Option<usize> {
    let entry = tables.kind(kind)?;
    let made = entry.constructors.get(constructor as usize)?;
    Some(made.fields.len())
}

/// The place of a constructor with so many parts in a kind.
fn fitting_place(
    room: &MemberRoom,
    number: PatternId,
    made: Made,
    kind: KindId,
    count: usize,
) -> Option<u32> {
    let place = constructor_place(room, number, made, kind)?;
    if part_count(room.tables, kind, place)? == count {
        Some(place)
    } else {
        None
    }
}

/// Goes into what a pattern is matched with, by a constructor of its kind.
fn open(
    room: &MemberRoom,
    types: &Types,
    opened: Matched,
    kind: KindId,
    constructor: u32,
) -> Result<Opened, AllocError> {
    Ok(Opened {
        kind,
        constructor,
        arguments: arguments_of(room.alloc, types, opened.of)?,
        matched: opened,
    })
}

/// What a constructor or a tuple with so many parts goes into. There is nothing where the type that it is matched with has
/// no such constructor, or one with other parts.
pub(crate) fn open_constructor(
    room: &MemberRoom,
    types: &Types,
    matched: Matched,
    number: PatternId,
    made: Made,
    count: usize,
) -> Result<Option<Opened>, AllocError> {
    let opened = matched.opened(types);
    let Some(kind) = opened.kind(types) else {
        return Ok(None);
    };
    match fitting_place(room, number, made, kind, count) {
        Some(place) => Ok(Some(open(room, types, opened, kind, place)?)),
        None => Ok(None),
    }
}

/// Whether a kind is one of the module with fields that a pattern can name.
fn has_fields(tables: &Tables, kind: KindId) -> bool {
    match tables.kind(kind) {
        Some(entry) => {
            matches!(entry.form, TypeForm::Plain) && matches!(entry.name, KindName::Declared(_))
        }
        None => false,
    }
}

/// What a pattern of fields goes into: an object of the module that is no process and of no enum.
pub(crate) fn open_fields(
    room: &MemberRoom,
    types: &Types,
    matched: Matched,
) -> Result<Option<Opened>, AllocError> {
    let opened = matched.opened(types);
    match opened.kind(types) {
        Some(kind) if has_fields(room.tables, kind) => {
            Ok(Some(open(room, types, opened, kind, 0)?))
        }
        _ => Ok(None),
    }
}

/// The part at this place of what a pattern goes into, as it is seen there.
pub(crate) fn part_at(
    room: &MemberRoom,
    state: &mut State,
    opened: &Opened,
    place: usize,
) -> Result<Option<Matched>, AllocError>
    ensures kinds { state.new.types.kinds ≡ state.old.types.kinds }
{
    let declared = constructed_field(
        room,
        &state.signatures,
        &mut state.types,
        opened.kind,
        opened.constructor,
        place,
    )?;
    let Some(declared) = declared else {
        return Ok(None);
    };
    let of = state.types.substitute(declared, &opened.arguments)?;
    Ok(Some(opened.matched.part(&mut state.types, of)?))
}

/// The field of this name of what a pattern goes into, as it is seen there.
pub(crate) fn field_at(
    room: &MemberRoom,
    state: &mut State,
    opened: &Opened,
    name: u32,
) -> Result<Option<Matched>, AllocError>
    ensures kinds { state.new.types.kinds ≡ state.old.types.kinds }
{
    match field_place(room.tables, opened.kind, name) {
        Some(place) => part_at(room, state, opened, place as usize),
        None => Ok(None),
    }
}
