//! Exits: what they leave is dropped.

use crate::around::{Around, Turn};
use ink_code::Instr;
use ink_emit::{Given, Hole, LowerFault};
use ink_forms::ExprId;
use ink_operations::{Owner, Room, Work, add_hole, dropped};

/// Drops the variables that an exit leaves and that hold a value there, the last declared first.
pub(crate) fn leave(room: &Room, work: &mut Work, exit: u32, line: u32) -> Result<(), LowerFault> {
    let planned = room.plan.at(room.context.alloc, exit)?;
    for planned in &planned {
        if !room.is_value(planned.variable) {
            let from = room.register(planned.variable);
            work.body.emit(line, dropped(planned.how, from))?;
        }
    }
    Ok(())
}

/// Ends the borrow that `self` is.
fn leave_self(room: &Room, work: &mut Work, line: u32) -> Result<(), LowerFault> {
    match room.owner {
        Owner::Borrowed => work.body.emit(line, Instr::Drop { from: 0 }),
        Owner::Nobody | Owner::Moved => Ok(()),
    }
}

/// Leaves a method with the value of a register, at the exit that this node is.
pub(crate) fn leave_method(
    room: &Room,
    work: &mut Work,
    exit: u32,
    from: u32,
    line: u32,
) -> Result<(), LowerFault> {
    leave(room, work, exit, line)?;
    leave_self(room, work, line)?;
    work.body.emit(line, Instr::Return { from })
}

/// A return of what its value gives. All that is held goes before the variables.
pub(crate) fn give_return(
    room: &Room,
    work: &mut Work,
    number: ExprId,
    given: Given,
) -> Result<Given, LowerFault> {
    let line = room.line_of(number);
    let Some(from) = work.settle(room, given, line)? else {
        return Ok(Given::Ends);
    };
    work.body.drop_held(0, line)?;
    leave_method(room, work, number, from, line)?;
    Ok(Given::Ends)
}

/// A break out of the innermost loop.
pub(crate) fn give_break(
    room: &Room,
    around: Around,
    work: &mut Work,
    number: ExprId,
) -> Result<Given, LowerFault> {
    let line = room.line_of(number);
    if let Some(turn) = around.turn {
        work.body.drop_held(turn.mark, line)?;
        leave(room, work, number, line)?;
        let hole = work.body.jump(line)?;
        add_hole(&mut work.breaks, hole)?;
    }
    Ok(Given::Ends)
}

/// A jump to the start of the innermost loop.
pub(crate) fn give_next(
    room: &Room,
    around: Around,
    work: &mut Work,
    number: ExprId,
) -> Result<Given, LowerFault> {
    let line = room.line_of(number);
    if let Some(turn) = around.turn {
        work.body.drop_held(turn.mark, line)?;
        leave(room, work, number, line)?;
        work.body.emit(line, Instr::Jump { place: turn.start })?;
    }
    Ok(Given::Ends)
}

/// The items behind the first so many.
fn behind(holes: &[Hole], count: usize) -> &[Hole] {
    if count <= holes.len() {
        &holes[count..]
    } else {
        &[]
    }
}

/// The end of a loop whose body was walked, behind so many jumps that leave loops round it: the next turn, and where its
/// breaks lead. Without a break nothing follows.
pub(crate) fn end_loop(
    room: &Room,
    work: &mut Work,
    number: ExprId,
    turn: Turn,
    given: Given,
    outer: usize,
) -> Result<Given, LowerFault> {
    if !matches!(given, Given::Ends) {
        let line = room.line_of(number);
        work.body.emit(line, Instr::Jump { place: turn.start })?;
    }
    work.body.release(turn.mark);
    let breaks = behind(&work.breaks, outer);
    if breaks.is_empty() {
        return Ok(Given::Ends);
    }
    work.body.land_all(breaks);
    work.breaks.truncate(outer);
    Ok(Given::Nil)
}

/// Gives up what a statement or a side of a choice gives, at the first token of the innermost statement.
pub(crate) fn give_up(
    room: &Room,
    around: Around,
    work: &mut Work,
    value: ExprId,
    given: Given,
) -> Result<Given, LowerFault> {
    match given {
        Given::Ends => Ok(Given::Ends),
        Given::Nil => Ok(Given::Nil),
        Given::At(from) => {
            if !room.is_value(value) {
                let line = room.line(around.statement);
                work.body.emit(line, Instr::Drop { from })?;
            }
            Ok(Given::Nil)
        }
    }
}
