//! Borrows and `recover`.

use crate::room::{Operand, Room, Spot, State};
use crate::values::{plain, value};
use ink_base::{BorrowKind, Rule};
use ink_members::seen_part;
use ink_types::{FUTURE, NEVER, PROMISE, Term, TypeId, Types};
use std::alloc::AllocError;

/// Whether such a borrow of a type would allow more than the type does.
fn is_raised(types: &Types, kind: BorrowKind, of: TypeId) -> bool {
    matches!(kind, BorrowKind::Mut) && matches!(types.term(of), Term::Ref(_))
}

/// A borrow of an operand. One of a value type or an unborrowable type has that type itself. No `mut` is made of a `ref`.
pub fn borrow_rule(
    room: &Room,
    state: &mut State,
    spot: Spot,
    kind: BorrowKind,
    operand: Operand,
) -> Result<Option<TypeId>, AllocError> {
    let Some(of) = operand.of else {
        return Ok(None);
    };
    if is_raised(&state.signed.types, kind, of) {
        let byte = room.members.arena.expr(operand.number).start;
        state.signed.least.break_at(Rule::NotMutable, byte);
        return Ok(None);
    }
    let of = seen_part(&mut state.signed.types, kind, of)?;
    Ok(value(state, spot, plain(of)))
}

/// Whether `uni` of a kind is made by `recover`: not of a value type, of Future, of Promise and of Never.
fn is_made_unique(types: &Types, kind: u32) -> bool {
    !types.is_value_kind(kind) && kind != FUTURE && kind != PROMISE && kind != NEVER
}

/// The type of a recovered value: an owned one becomes unique and a unique one owned. Any other stays as it is, and whether
/// it may be recovered is asked later.
fn recovered(types: &mut Types, of: TypeId) -> Result<TypeId, AllocError> {
    match types.term(of) {
        Term::Uni(inner) => Ok(inner),
        Term::Of { kind, .. } if is_made_unique(types, kind) => types.unique_of(of),
        _ => Ok(of),
    }
}

/// A `recover` of an operand.
pub fn recover_rule(
    state: &mut State,
    spot: Spot,
    operand: Option<TypeId>,
) -> Result<Option<TypeId>, AllocError> {
    let Some(of) = operand else {
        return Ok(None);
    };
    let of = recovered(&mut state.signed.types, of)?;
    Ok(value(state, spot, plain(of)))
}
