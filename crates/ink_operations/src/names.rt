//! Literals, variables and `self`, as values.

use crate::room::Room;
use crate::work::Work;
use ink_arms::read_view;
use ink_code::Instr;
use ink_emit::{Given, LowerFault};
use ink_forms::{ExprId, Literal};

/// A literal. Nil stands in no register yet.
pub fn give_literal(
    room: &Room,
    work: &mut Work,
    number: ExprId,
    literal: Literal,
) -> Result<Given, LowerFault> {
    if let Literal::Nil = literal {
        return Ok(Given::Nil);
    }
    let to = work.body.free();
    let constant = room.context.constants.literal(literal);
    work.body
        .emit(room.line_of(number), Instr::Const { to, constant })?;
    Ok(Given::At(to))
}

/// Reads a variable that the pattern of an arm binds whose guard is in force: its part of what is matched, which isn't taken
/// apart yet. There is no register for any other variable.
pub(crate) fn read_viewed(
    room: &Room,
    work: &mut Work,
    number: ExprId,
) -> Result<Option<u32>, LowerFault> {
    let Some(variable) = room.variable(number) else {
        return Ok(None);
    };
    let Some(guard) = work.guard_of(variable) else {
        return Ok(None);
    };
    let line = room.line_of(number);
    let register = read_view(
        &room.context,
        &mut work.body,
        guard.pattern,
        guard.register,
        variable,
        line,
    )?;
    Ok(Some(register))
}

/// The register of a variable that is one.
pub(crate) fn variable_register(room: &Room, number: ExprId) -> u32 {
    match room.variable(number) {
        Some(variable) => room.register(variable),
        None => 0,
    }
}

/// The read of a variable whose value is wanted, by its type as it is seen: a value is copied, a borrow is borrowed, and so
/// is an owner that is seen as one, and an owner is moved.
fn taken(room: &Room, number: ExprId, to: u32, from: u32) -> Instr {
    if room.is_value(number) {
        Instr::Copy { to, from }
    } else if room.is_borrow(number) {
        Instr::Borrow { to, from }
    } else {
        Instr::Move { to, from }
    }
}

/// A variable.
pub fn give_variable(room: &Room, work: &mut Work, number: ExprId) -> Result<Given, LowerFault> {
    if let Some(register) = read_viewed(room, work, number)? {
        return Ok(Given::At(register));
    }
    let to = work.body.free();
    let from = variable_register(room, number);
    work.body
        .emit(room.line_of(number), taken(room, number, to, from))?;
    Ok(Given::At(to))
}

/// `self`, which in an async type is the reference to this process.
pub fn give_self(room: &Room, work: &mut Work, number: ExprId) -> Result<Given, LowerFault> {
    let to = work.body.free();
    let instr = if room.is_value(number) {
        Instr::MyProc { to }
    } else {
        taken(room, number, to, 0)
    };
    work.body.emit(room.line_of(number), instr)?;
    Ok(Given::At(to))
}
