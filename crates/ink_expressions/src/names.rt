//! Variables and `self`.

use crate::room::{Room, Spot, State, Within};
use crate::values::{plain, value};
use ink_base::BorrowKind;
use ink_members::seen_part;
use ink_names::Resolution;
use ink_types::TypeId;
use std::alloc::AllocError;

/// The variable that an expression is, by the node that declares it.
pub(crate) fn variable_of(room: &Room, number: u32) -> Option<u32> {
    match room.members.resolutions.get(number) {
        Resolution::Variable(variable) => Some(variable),
        _ => None,
    }
}

/// Whether a variable is declared outside of the guard that is walked.
pub(crate) fn is_outside_guard(state: &State, variable: u32) -> bool {
    match state.guards.last() {
        Some(guard) => variable <= guard.pattern,
        None => false,
    }
}

/// A variable. One that isn't of a value type is seen as a `ref` in a guard, if it is declared outside of it, and one of
/// an unborrowable type as it is.
pub fn variable_rule(
    room: &Room,
    state: &mut State,
    spot: Spot,
) -> Result<Option<TypeId>, AllocError> {
    let Some(variable) = variable_of(room, spot.number) else {
        return Ok(None);
    };
    let Some(declared) = state.typed.type_of(variable) else {
        return Ok(None);
    };
    let of = if is_outside_guard(state, variable) {
        seen_part(&mut state.signed.types, BorrowKind::Ref, declared)?
    } else {
        declared
    };
    Ok(value(state, spot, plain(of)))
}

/// `self`.
pub fn self_rule(within: Within, state: &mut State, spot: Spot) -> Option<TypeId> {
    let own = if state.is_in_guard() {
        within.own_in_guard
    } else {
        within.own
    };
    let of = own?;
    value(state, spot, plain(of))
}
