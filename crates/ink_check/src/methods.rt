//! What a method brings to its body.

use crate::walk::walk;
use ink_base::BorrowKind;
use ink_expressions::{Room, State, Within, give_type, written_at};
use ink_forms::{Mode, ParameterId, WrittenTypeId};
use ink_members::{seen_part, self_type};
use ink_names::{MethodEntry, MethodNumber};
use ink_types::{NIL, Term, TypeId};
use std::alloc::AllocError;

/// The type of what a method gives: Nil where nothing is written.
fn outcome_type(state: &mut State, written: Option<WrittenTypeId>) -> Result<TypeId, AllocError> {
    match written_at(state, written) {
        Some(of) => Ok(of),
        None => {
            let of = state.signed.types.of(NIL, &[])?;
            Ok(of)
        }
    }
}

/// Gives each parameter its type.
fn declare_parameters(room: &Room, state: &mut State, parameters: &[ParameterId]) {
    for parameter in parameters {
        let annotation = room
            .members
            .arena
            .parameter(*parameter)
            .parameter
            .annotation;
        let of = written_at(state, Some(annotation));
        give_type(state, *parameter, of);
    }
}

/// Whether a type is that of a process.
fn is_process(state: &State, own: Option<TypeId>) -> bool {
    match own {
        Some(own) => match state.signed.types.term(own) {
            Term::Of { kind, .. } => state.signed.types.is_async(kind),
            _ => false,
        },
        None => false,
    }
}

/// The type of `self` in a guard.
fn own_in_guard(state: &mut State, own: Option<TypeId>) -> Result<Option<TypeId>, AllocError> {
    match own {
        Some(own) => {
            let of = seen_part(&mut state.signed.types, BorrowKind::Ref, own)?;
            Ok(Some(of))
        }
        None => Ok(None),
    }
}

/// What a method is for its body.
fn within_of(
    room: &Room,
    state: &mut State,
    method: MethodNumber,
    entry: &MethodEntry,
) -> Result<Within, AllocError> {
    let outcome = outcome_type(state, entry.result)?;
    let own = self_type(&room.members, &mut state.signed.types, method)?;
    let own_in_guard = own_in_guard(state, own)?;
    Ok(Within {
        method,
        outcome,
        own,
        own_in_guard,
        is_process: is_process(state, own),
        is_state_fixed: matches!(entry.mode, Mode::Plain),
        recover: None,
    })
}

/// The types of a method's parameters and of its body.
pub(crate) fn type_method(
    room: &Room,
    state: &mut State,
    method: MethodNumber,
    entry: &MethodEntry,
) -> Result<(), AllocError> {
    let within = within_of(room, state, method, entry)?;
    let node = room.members.arena.method(entry.node).method;
    give_type(state, entry.node, within.own);
    declare_parameters(room, state, room.members.arena.list(node.parameters));
    walk(room, within, state, node.body, Some(within.outcome))?;
    Ok(())
}
