//! Paths of fields that are read only.
ghost use Rattle.std.specs.Prelude.{◌<◌, IfSome};

use crate::room::{Room, State, Within};
use ink_forms::{Expr, ExprId};
use ink_types::Term;

/// Whether an expression is the word `self` in an async type, where it stands for the state if something is reached
/// through it.
pub(crate) fn is_state(room: &Room, within: Within, number: ExprId) -> bool {
    within.is_process && matches!(room.members.arena.expr(number).expr, Expr::SelfValue)
}

/// Whether nothing can be written through a value: it is a `ref`, or the state where that is read only.
fn is_ref(room: &Room, within: Within, state: &State, number: ExprId) -> bool {
    if is_state(room, within, number) {
        return within.is_state_fixed || state.is_in_guard();
    }
    match state.typed.type_of(number) {
        Some(of) => matches!(state.signed.types.term(of), Term::Ref(_)),
        None => false,
    }
}

/// The base of a field that is read or written. One that calls a method is none.
fn base_of(room: &Room, state: &State, path: ExprId) -> Option<ExprId>
    ensures { IfSome result (λ base. base < path) }
{
    match room.members.arena.expr(path).expr {
        Expr::Field { base, .. } => match state.typed.target(path) {
            Some(_) => None,
            None => Some(base),
        },
        _ => None,
    }
}

/// Whether nothing can be written through an expression: it is a `ref`, or a field path that begins with one or has one on
/// its way.
pub(crate) fn is_read_only(room: &Room, within: Within, state: &State, number: ExprId) -> bool {
    let mut end = number;
    while let Some(base) = base_of(room, state, end) {
        if is_ref(room, within, state, end) {
            return true;
        }
        end = base;
    }
    is_ref(room, within, state, end)
}
