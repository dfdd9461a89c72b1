//! What names mean behind a point.
ghost use Rattle.std.specs.Prelude.{◌≡◌};

use crate::bounds::{bound_method, bounds_of};
use crate::fields::{field_of, part_of, reaches_state};
use crate::receiver::{Receiver, bare_type, kind_of};
use crate::room::{Lookup, Member, MemberRoom};
use crate::rows::{spelling, static_row, value_row};
use ink_findings::Target;
use ink_forms::{IntegerId, Mode, NameId, Operator};
use ink_names::{KindId, MethodNumber, Named, Resolution};
use ink_signatures::Signatures;
use ink_types::{Term, TypeId, Types};
use std::alloc::AllocError;

/// A method of a kind that is called on a value. A static one is none of a value, and those of an async type that are no
/// messages are called on `self` alone.
fn method_called(
    room: &MemberRoom,
    types: &Types,
    receiver: Receiver,
    kind: KindId,
    number: MethodNumber,
) -> Lookup {
    let Some(entry) = room.tables.method(number) else {
        return Lookup::Absent;
    };
    if matches!(entry.mode, Mode::Static) {
        return Lookup::Absent;
    }
    if !entry.is_async && !reaches_state(types, receiver, kind) {
        return Lookup::Absent;
    }
    Lookup::Found(Member::Calls(Target::Method(number)))
}

/// What a name means among the methods of a type that isn't a type parameter.
fn method_of_kind(
    room: &MemberRoom,
    types: &Types,
    receiver: Receiver,
    bare: TypeId,
    kind: KindId,
    name: NameId,
) -> Lookup {
    match room.tables.method_named(kind, name) {
        Some(Named::One(number)) => method_called(room, types, receiver, kind, number),
        Some(Named::Several) => Lookup::Several,
        None => value_row(types, bare, kind, room.names.text(name)),
    }
}

/// What a name means among the methods of a value: those of its type, with the built-in ones, or those of the traits that
/// bound its type parameter.
fn method_of(room: &MemberRoom, types: &Types, receiver: Receiver, name: NameId) -> Lookup {
    let bare = bare_type(types, receiver.of);
    match types.term(bare) {
        Term::Parameter(number) => {
            let traits = bounds_of(room.tables, receiver.within, number);
            bound_method(room.tables, traits, name)
        }
        Term::Of { kind, .. } => method_of_kind(room, types, receiver, bare, kind, name),
        _ => Lookup::Absent,
    }
}

/// What a name means among the fields of a value of a type that isn't a type parameter.
fn field_named(
    room: &MemberRoom,
    signatures: &Signatures,
    types: &mut Types,
    receiver: Receiver,
    kind: KindId,
    name: NameId,
) -> Result<Lookup, AllocError>
    ensures kinds { types.new.kinds ≡ types.old.kinds }
{
    if !reaches_state(types, receiver, kind) {
        return Ok(Lookup::Absent);
    }
    match room.tables.field(kind, name) {
        Some(index) => field_of(room, signatures, types, receiver.of, kind, index),
        None => Ok(Lookup::Absent),
    }
}

/// Whether a name is that of a field, and that of a method too, of whatever kind.
fn is_field_and_method(room: &MemberRoom, kind: KindId, name: NameId) -> bool {
    room.tables.field(kind, name).is_some() && room.tables.method_named(kind, name).is_some()
}

/// What `.name` means where no arguments stand and it isn't written: a field, or a method where the type has no such field.
/// Where it has both, it means neither.
pub fn read_member(
    room: &MemberRoom,
    signatures: &Signatures,
    types: &mut Types,
    receiver: Receiver,
    name: NameId,
) -> Result<Lookup, AllocError>
    ensures kinds { types.new.kinds ≡ types.old.kinds }
{
    if let Some(kind) = kind_of(types, receiver.of) {
        if is_field_and_method(room, kind, name) {
            return Ok(Lookup::Several);
        }
        if room.tables.field(kind, name).is_some() {
            return field_named(room, signatures, types, receiver, kind, name);
        }
    }
    Ok(method_of(room, types, receiver, name))
}

/// What `.name(..)` means: a method.
pub fn call_member(room: &MemberRoom, types: &Types, receiver: Receiver, name: NameId) -> Lookup {
    method_of(room, types, receiver, name)
}

/// What `.name` means where it is written: a field.
pub fn written_member(
    room: &MemberRoom,
    signatures: &Signatures,
    types: &mut Types,
    receiver: Receiver,
    name: NameId,
) -> Result<Lookup, AllocError>
    ensures kinds { types.new.kinds ≡ types.old.kinds }
{
    match kind_of(types, receiver.of) {
        Some(kind) => field_named(room, signatures, types, receiver, kind, name),
        None => Ok(Lookup::Absent),
    }
}

/// What `@name` means: a field of `self`, which has this type.
pub fn at_field(
    room: &MemberRoom,
    signatures: &Signatures,
    types: &mut Types,
    receiver: Receiver,
    name: NameId,
) -> Result<Lookup, AllocError>
    ensures kinds { types.new.kinds ≡ types.old.kinds }
{
    let own = Receiver {
        is_self: true,
        ..receiver
    };
    written_member(room, signatures, types, own, name)
}

/// The part of a value by an integer's number.
fn part_member(room: &MemberRoom, types: &Types, of: TypeId, integer: IntegerId) -> Option<Member> {
    let bare = bare_type(types, of);
    let kind = kind_of(types, bare)?;
    part_of(types, bare, kind, room.integers.value(integer))
}

/// What `.0` means, with any integer: a part of a tuple.
pub fn part(room: &MemberRoom, types: &Types, of: TypeId, integer: IntegerId) -> Lookup {
    match part_member(room, types, of, integer) {
        Some(member) => Lookup::Found(member),
        None => Lookup::Absent,
    }
}

/// What an operator means: a built-in method.
pub fn operator_member(types: &Types, of: TypeId, operator: Operator) -> Lookup {
    let bare = bare_type(types, of);
    match kind_of(types, bare) {
        Some(kind) => value_row(types, bare, kind, spelling(operator)),
        None => Lookup::Absent,
    }
}

/// A method of a kind that is called behind its type: a static one.
fn static_called(room: &MemberRoom, number: MethodNumber) -> Lookup {
    let Some(entry) = room.tables.method(number) else {
        return Lookup::Absent;
    };
    match entry.mode {
        Mode::Static => Lookup::Found(Member::Calls(Target::Method(number))),
        _ => Lookup::Absent,
    }
}

/// What a name means behind a kind.
fn static_of_kind(room: &MemberRoom, kind: KindId, name: NameId) -> Lookup {
    match room.tables.method_named(kind, name) {
        Some(Named::Several) => Lookup::Several,
        Some(Named::One(number)) => static_called(room, number),
        None => static_row(kind, room.names.text(name)),
    }
}

/// What a name means behind what stands for a type: a static method. A type parameter has none.
pub fn static_member(room: &MemberRoom, owner: Resolution, name: NameId) -> Lookup {
    match owner {
        Resolution::Kind(kind) | Resolution::SelfType(kind) => static_of_kind(room, kind, name),
        _ => Lookup::Absent,
    }
}
