//! Written places.

use crate::fields::{found_member, receiver_of};
use crate::names::{is_outside_guard, variable_of};
use crate::read_only::is_read_only;
use crate::room::{Operand, Room, Spot, State, Within};
use crate::values::{plain, value};
use ink_base::Rule;
use ink_forms::{Binding, Expr, Pattern, Selector};
use ink_members::{Lookup, Member, Receiver, at_field, part, written_member};
use ink_types::{NIL, TypeId};
use std::alloc::AllocError;

/// Whether a variable is declared with `mut`.
fn is_mutable(room: &Room, variable: u32) -> bool {
    match room.members.arena.expr(variable).expr {
        Expr::Let { binding, .. } | Expr::TypedLet { binding, .. } => {
            matches!(binding, Binding::Mutable(_))
        }
        _ => match room.members.arena.pattern(variable).pattern {
            Pattern::Name { is_mutable, .. } => is_mutable,
            _ => false,
        },
    }
}

/// Whether the pattern of an arm binds a variable whose guard is walked.
fn is_bound_by_guard(state: &State, variable: u32) -> bool {
    for guard in &state.guards {
        if guard.scrutinee < variable && variable <= guard.pattern {
            return true;
        }
    }
    false
}

/// Whether guards allow to write a variable: one that is declared outside has a value type, and its guard doesn't bind it.
fn is_writable_in_guard(state: &State, variable: u32) -> bool {
    if !is_outside_guard(state, variable) {
        return true;
    }
    let is_value = match state.typed.type_of(variable) {
        Some(of) => state.signed.types.is_value(of),
        None => true,
    };
    is_value && !is_bound_by_guard(state, variable)
}

/// A variable that is written, which has to be declared with `mut`.
pub fn variable_place(room: &Room, state: &mut State, spot: Spot) -> Option<TypeId> {
    let variable = variable_of(room, spot.number)?;
    if !is_mutable(room, variable) || !is_writable_in_guard(state, variable) {
        state.signed.least.break_at(Rule::NotMutable, spot.start);
    }
    let of = state.typed.type_of(variable)?;
    state.typed.put(spot.number, plain(of));
    Some(of)
}

/// What a selector means where it is written.
fn look_up(
    room: &Room,
    state: &mut State,
    receiver: Receiver,
    selector: Selector,
) -> Result<Lookup, AllocError> {
    let signatures = &state.signed.signatures;
    let types = &mut state.signed.types;
    match selector {
        Selector::Field(name) => at_field(&room.members, signatures, types, receiver, name),
        Selector::Named(name) => written_member(&room.members, signatures, types, receiver, name),
        Selector::Part(integer) => Ok(part(&room.members, types, receiver.of, integer)),
    }
}

/// A field that is written, whose path may not be read only.
pub fn field_place(
    room: &Room,
    within: Within,
    state: &mut State,
    spot: Spot,
    selector: Selector,
    base: Operand,
) -> Result<Option<TypeId>, AllocError> {
    let Some(of) = base.of else {
        return Ok(None);
    };
    let receiver = receiver_of(room, within, base.number, of);
    let lookup = look_up(room, state, receiver, selector)?;
    let Some(Member::Field { of, .. }) = found_member(state, spot.place, lookup) else {
        return Ok(None);
    };
    if is_read_only(room, within, state, base.number) {
        state.signed.least.break_at(Rule::NotMutable, spot.start);
    }
    state.typed.put(spot.number, plain(of));
    Ok(Some(of))
}

/// A name behind a type where something is written: a type has no fields.
pub fn static_place(state: &mut State, spot: Spot) {
    state.signed.least.break_at(Rule::UnknownMember, spot.place);
}

/// A write.
pub fn set_rule(state: &mut State, spot: Spot) -> Result<Option<TypeId>, AllocError> {
    let of = state.signed.types.of(NIL, &[])?;
    Ok(value(state, spot, plain(of)))
}

/// A write that gives the old value of a place of this type.
pub fn swap_rule(state: &mut State, spot: Spot, of: Option<TypeId>) -> Option<TypeId> {
    let of = of?;
    value(state, spot, plain(of))
}
