//! Values, and whether they may stand where they do.

use crate::room::{Spot, State};
use ink_base::Rule;
use ink_findings::{Found, Target};
use ink_forms::Literal;
use ink_types::{BOOL, INT, NIL, STRING, TypeId};
use std::alloc::AllocError;

/// A type that is assignable to what is expected, told at this byte where it isn't.
pub(crate) fn assignable(state: &mut State, byte: u32, wanted: Option<TypeId>, of: TypeId) -> bool {
    let holds = match wanted {
        Some(wanted) => state.signed.types.assignable(of, wanted),
        None => true,
    };
    if !holds {
        state.signed.least.break_at(Rule::WrongType, byte);
    }
    holds
}

/// Puts what was found of an expression, and gives its type where it may stand there.
pub(crate) fn value(state: &mut State, spot: Spot, found: Found) -> Option<TypeId> {
    state.typed.put(spot.number, found);
    if assignable(state, spot.start, spot.wanted, found.of) {
        Some(found.of)
    } else {
        None
    }
}

/// A value that calls nothing.
pub(crate) fn plain(of: TypeId) -> Found {
    Found { of, target: None }
}

/// What was found of a call.
pub(crate) fn call(of: TypeId, target: Target) -> Found {
    Found {
        of,
        target: Some(target),
    }
}

/// A kind without arguments.
pub(crate) fn bare_kind(state: &mut State, kind: u32) -> Result<TypeId, AllocError> {
    let of = state.signed.types.of(kind, &[])?;
    Ok(of)
}

/// The kind of a literal.
fn kind_of(literal: Literal) -> u32 {
    match literal {
        Literal::Int(_) => INT,
        Literal::Bool(_) => BOOL,
        Literal::Nil => NIL,
        Literal::Text(_) => STRING,
    }
}

/// A literal.
pub fn literal_rule(
    state: &mut State,
    spot: Spot,
    literal: Literal,
) -> Result<Option<TypeId>, AllocError> {
    let of = bare_kind(state, kind_of(literal))?;
    Ok(value(state, spot, plain(of)))
}
