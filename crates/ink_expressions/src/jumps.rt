//! Loops, jumps, and what gives nil.

use crate::room::{Spot, State};
use crate::values::{bare_kind, plain, value};
use ink_base::Rule;
use ink_types::{NEVER, NIL, STRING, TypeId};
use std::alloc::AllocError;

/// What gives nil.
pub fn nil_rule(state: &mut State, spot: Spot) -> Result<Option<TypeId>, AllocError> {
    let of = bare_kind(state, NIL)?;
    Ok(value(state, spot, plain(of)))
}

/// What gives no value.
pub fn never_rule(state: &mut State, spot: Spot) -> Result<Option<TypeId>, AllocError> {
    let of = bare_kind(state, NEVER)?;
    Ok(value(state, spot, plain(of)))
}

/// A loop, behind its body: the innermost one ends. One that nothing breaks gives no value.
pub fn loop_rule(state: &mut State, spot: Spot) -> Result<Option<TypeId>, AllocError> {
    match state.loops.pop() {
        Some(true) => nil_rule(state, spot),
        _ => never_rule(state, spot),
    }
}

/// Whether a jump stands in a loop, which it may break.
fn jump(loops: &mut Vec<bool>, is_break: bool) -> bool {
    match loops.last_mut() {
        Some(is_broken) => {
            if is_break {
                *is_broken = true;
            }
            true
        }
        None => false,
    }
}

/// A `break` or a `next`, which stands in a loop.
pub fn jump_rule(
    state: &mut State,
    spot: Spot,
    is_break: bool,
) -> Result<Option<TypeId>, AllocError> {
    if jump(&mut state.loops, is_break) {
        return never_rule(state, spot);
    }
    state.signed.least.break_at(Rule::JumpOutside, spot.start);
    Ok(None)
}

/// What is expected of the arguments of a panic, of which there is one: its text.
pub fn panic_wanted(
    state: &mut State,
    spot: Spot,
    count: usize,
) -> Result<Option<TypeId>, AllocError> {
    if count != 1 {
        state.signed.least.break_at(Rule::ArgumentCount, spot.place);
        return Ok(None);
    }
    let of = bare_kind(state, STRING)?;
    Ok(Some(of))
}
