//! The rules on how a type is written, each of which tells whether it holds.
ghost use Rattle.std.specs.Prelude.{◌≤◌};
ghost use Rattle.ink_base.specs.Refusal.{rule_code};

use crate::bounds::meets;
use crate::own::is_declared;
use crate::room::{Owner, Room};
use ink_base::Rule;
use ink_names::{KindId, Least, Resolution, TypeParameterEntry};
use ink_types::{FUTURE, PROMISE, Term, TypeId, Types};

/// Tells that a rule is broken where it doesn't hold.
fn told(least: &mut Least, rule: Rule, byte: u32, holds: bool) -> bool
    requires { 10 ≤ rule_code rule }
{
    if !holds {
        least.break_at(rule, byte);
    }
    holds
}

/// How many type arguments a name takes: none where it is no type's own.
fn arity(room: &Room, named: Resolution) -> usize {
    match named {
        Resolution::Kind(kind) => match room.tables.kind(kind) {
            Some(entry) => entry.parameters.len(),
            None => 0,
        },
        _ => 0,
    }
}

/// A type has as many arguments as it has parameters. A type parameter and `Self` have none.
pub(crate) fn has_arity(
    room: &Room,
    least: &mut Least,
    name: u32,
    named: Resolution,
    count: usize,
) -> bool {
    let holds = count == arity(room, named);
    told(least, Rule::TypeArity, name, holds)
}

/// The declared type that a name stands for.
fn declared_kind(named: Resolution) -> Option<KindId> {
    match named {
        Resolution::Kind(kind) | Resolution::SelfType(kind) => {
            if is_declared(kind) { Some(kind) } else { None }
        }
        _ => None,
    }
}

/// Whether none of these types is unborrowable.
fn are_borrowable(types: &Types, arguments: &[TypeId]) -> bool {
    for argument in arguments {
        if types.is_unborrowable(*argument) {
            return false;
        }
    }
    true
}

/// The arguments of a declared type can be borrowed.
pub(crate) fn has_borrowable(
    types: &Types,
    least: &mut Least,
    start: u32,
    named: Resolution,
    arguments: &[TypeId],
) -> bool {
    let holds = declared_kind(named).is_none() || are_borrowable(types, arguments);
    told(least, Rule::UniArgument, start, holds)
}

/// Whether each argument that has a parameter has the traits that bound it.
fn meet_bounds(
    room: &Room,
    owner: Owner,
    types: &Types,
    parameters: &[TypeParameterEntry],
    arguments: &[TypeId],
) -> bool {
    for (parameter, argument) in parameters.iter().zip(arguments) {
        if !meets(room, owner, types, *argument, &parameter.bounds) {
            return false;
        }
    }
    true
}

/// Whether all these types are sendable.
fn are_sendable(types: &Types, arguments: &[TypeId]) -> bool {
    for argument in arguments {
        if !types.sendable(*argument) {
            return false;
        }
    }
    true
}

/// Whether the arguments of a type are such as its parameters ask for.
fn suit(room: &Room, owner: Owner, types: &Types, named: Resolution, arguments: &[TypeId]) -> bool {
    match named {
        Resolution::Kind(FUTURE | PROMISE) => are_sendable(types, arguments),
        Resolution::Kind(kind) => match room.tables.kind(kind) {
            Some(entry) => meet_bounds(room, owner, types, &entry.parameters, arguments),
            None => true,
        },
        _ => true,
    }
}

/// The arguments of a type have the traits that bound its parameters, and those of a future or a promise are sendable.
pub(crate) fn has_bounds(
    room: &Room,
    owner: Owner,
    types: &Types,
    least: &mut Least,
    start: u32,
    named: Resolution,
    arguments: &[TypeId],
) -> bool {
    let holds = suit(room, owner, types, named, arguments);
    told(least, Rule::BoundUnmet, start, holds)
}

/// Whether `uni` may stand before a type. Of the parameters only `Self` of a trait may have it.
fn may_be_unique(types: &Types, owner: Owner, of: TypeId) -> bool {
    match types.term(of) {
        Term::Parameter(_) => matches!(owner, Owner::Trait(_)),
        _ => !types.is_unborrowable(of),
    }
}

/// `uni` stands neither before a type parameter nor before a future or a promise.
pub(crate) fn is_well_unique(
    types: &Types,
    least: &mut Least,
    owner: Owner,
    start: u32,
    of: TypeId,
) -> bool {
    let holds = may_be_unique(types, owner, of);
    told(least, Rule::UniArgument, start, holds)
}

/// What goes to another process with a message is sendable.
pub(crate) fn is_sent(types: &Types, least: &mut Least, start: u32, of: TypeId) -> bool {
    let holds = types.sendable(of);
    told(least, Rule::AsyncNotSendable, start, holds)
}
