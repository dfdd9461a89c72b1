//! The parameters of what is called or made, and the rules on the type arguments that were found.
ghost use Rattle.std.specs.Prelude.{◌≤◌};
ghost use Rattle.ink_base.specs.Refusal.{rule_code};

use crate::room::{Room, State, Within};
use ink_base::Rule;
use ink_findings::Target;
use ink_forms::Identifier;
use ink_members::{
    Construction, bounds_of, constructed_field, field_place, kind_bounds, parameter_type,
};
use ink_names::{MethodNumber, TraitId};
use ink_prims::row_at;
use ink_signatures::{Owner, meets};
use ink_types::TypeId;
use std::alloc::AllocError;

/// How many built-in methods there are.
const ROW_COUNT: u32 = 48;

/// What is called or made.
#[derive(Clone, Copy)]
pub(crate) enum Called {
    Target(Target),
    Made(Construction),
}

/// Whether a built-in method gives something fresh.
pub(crate) fn is_fresh(target: Target) -> bool {
    match target {
        Target::Row(number) if number < ROW_COUNT => row_at(number).fresh,
        _ => false,
    }
}

/// The place of the field that an argument is for. An unknown name is told.
fn place_of(
    room: &Room,
    state: &mut State,
    made: Construction,
    index: usize,
    label: Option<Identifier>,
) -> Option<usize> {
    let Some(label) = label else {
        return Some(index);
    };
    match field_place(room.members.tables, made.kind, label.name) {
        Some(place) => Some(place as usize),
        None => {
            let least = &mut state.signed.least;
            least.break_at(Rule::UnknownMember, label.place);
            None
        }
    }
}

/// The type of the parameter that an argument is for, over the type parameters of what is called.
pub(crate) fn parameter(
    room: &Room,
    state: &mut State,
    called: Called,
    index: usize,
    label: Option<Identifier>,
) -> Result<Option<TypeId>, AllocError> {
    match called {
        Called::Target(target) => parameter_type(
            &room.members,
            &state.signed.signatures,
            &mut state.signed.types,
            target,
            index,
        ),
        Called::Made(made) => match place_of(room, state, made, index, label) {
            Some(place) => constructed_field(
                &room.members,
                &state.signed.signatures,
                &mut state.signed.types,
                made.kind,
                made.index,
                place,
            ),
            None => Ok(None),
        },
    }
}

/// Tells that a rule is broken at this byte where it doesn't hold.
fn told(state: &mut State, rule: Rule, byte: u32, holds: bool) -> bool
    requires { 10 ≤ rule_code rule }
{
    if !holds {
        state.signed.least.break_at(rule, byte);
    }
    holds
}

/// A type argument of what the module declares can be borrowed.
fn is_borrowable(state: &mut State, byte: u32, argument: TypeId) -> bool {
    let holds = !state.signed.types.is_unborrowable(argument);
    told(state, Rule::UniArgument, byte, holds)
}

/// A type argument has the traits that bound its parameter.
fn is_bounded(
    room: &Room,
    within: Within,
    state: &mut State,
    byte: u32,
    argument: TypeId,
    bounds: &[TraitId],
) -> bool {
    let owner = Owner::Method(within.method);
    let holds = meets(&room.written, owner, &state.signed.types, argument, bounds);
    told(state, Rule::BoundUnmet, byte, holds)
}

/// The rules on the type arguments of a method. The inherited ones were judged with the receiver's type.
fn method_arguments(
    room: &Room,
    within: Within,
    state: &mut State,
    byte: u32,
    method: MethodNumber,
    inherited: u32,
    arguments: &[TypeId],
) -> bool {
    let mut hold = true;
    let mut number = 0;
    for argument in arguments {
        if number >= inherited {
            let bounds = bounds_of(room.members.tables, method, number);
            let is_bounded = is_bounded(room, within, state, byte, *argument, bounds);
            hold = is_borrowable(state, byte, *argument) && is_bounded && hold;
        }
        number = number.saturating_add(1);
    }
    hold
}

/// The rules on the type arguments of a type of the module.
fn kind_arguments(
    room: &Room,
    within: Within,
    state: &mut State,
    byte: u32,
    kind: u32,
    arguments: &[TypeId],
) -> bool {
    let mut hold = true;
    let mut number: u32 = 0;
    for argument in arguments {
        let bounds = kind_bounds(room.members.tables, kind, number);
        let is_bounded = is_bounded(room, within, state, byte, *argument, bounds);
        hold = is_borrowable(state, byte, *argument) && is_bounded && hold;
        number = number.saturating_add(1);
    }
    hold
}

/// What a future holds is sendable. Of the static built-in methods that alone has a type argument.
fn row_arguments(state: &mut State, byte: u32, inherited: u32, arguments: &[TypeId]) -> bool {
    match arguments.first() {
        Some(argument) if inherited == 0 => {
            let holds = state.signed.types.sendable(*argument);
            told(state, Rule::BoundUnmet, byte, holds)
        }
        _ => true,
    }
}

/// The rules on the type arguments of what is called or made, told at this byte.
pub(crate) fn arguments_hold(
    room: &Room,
    within: Within,
    state: &mut State,
    byte: u32,
    called: Called,
    inherited: u32,
    arguments: &[TypeId],
) -> bool {
    match called {
        Called::Target(Target::Method(method)) => {
            method_arguments(room, within, state, byte, method, inherited, arguments)
        }
        Called::Target(Target::Bound(_)) => true,
        Called::Target(Target::Row(_)) => row_arguments(state, byte, inherited, arguments),
        Called::Made(made) if made.is_declared => {
            kind_arguments(room, within, state, byte, made.kind, arguments)
        }
        Called::Made(_) => true,
    }
}
