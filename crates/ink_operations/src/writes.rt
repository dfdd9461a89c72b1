//! Variables that are declared or written, and fields that are written.

use crate::calls::first_of;
use crate::paths::{Root, field_of, find_path};
use crate::room::Room;
use crate::work::Work;
use ink_code::Instr;
use ink_emit::{Given, LowerFault, Unsound};
use ink_forms::{Binding, Expr, ExprId};
use ink_plan::How;

/// Puts the value in a register into the variable that a `let` declares. Under `_` it is dropped.
pub fn put_declared(
    room: &Room,
    work: &mut Work,
    number: ExprId,
    binding: Binding,
    value: ExprId,
    from: u32,
) -> Result<(), LowerFault> {
    let line = room.first_line(number);
    match binding {
        Binding::Fixed(_) | Binding::Mutable(_) => {
            let to = room.register(number);
            work.body.emit(line, Instr::Move { to, from })
        }
        Binding::Wildcard => {
            if room.is_value(value) {
                return Ok(());
            }
            work.body.emit(line, Instr::Drop { from })
        }
    }
}

/// The drop of a register, which may be empty where that isn't known.
pub fn dropped(how: How, from: u32) -> Instr {
    match how {
        How::Sure => Instr::Drop { from },
        How::Maybe => Instr::DropMaybe { from },
    }
}

/// Writes a variable, and then drops its old value, where it has one.
fn set_variable(
    room: &Room,
    work: &mut Work,
    number: ExprId,
    variable: u32,
    from: u32,
) -> Result<Given, LowerFault> {
    let line = room.line_of(number);
    let to = room.register(variable);
    if room.is_value(variable) {
        work.body.emit(line, Instr::Move { to, from })?;
        return Ok(Given::Nil);
    }
    match room.plan.how(number, variable) {
        None => work.body.emit(line, Instr::Move { to, from })?,
        Some(how) => {
            let exchange = Instr::Exchange {
                one: to,
                other: from,
            };
            work.body.emit(line, exchange)?;
            work.body.emit(line, dropped(how, from))?;
        }
    }
    Ok(Given::Nil)
}

/// Writes a variable, and gives its old value.
fn swap_variable(
    room: &Room,
    work: &mut Work,
    number: ExprId,
    variable: u32,
    from: u32,
) -> Result<Given, LowerFault> {
    let exchange = Instr::Exchange {
        one: room.register(variable),
        other: from,
    };
    work.body.emit(room.line_of(number), exchange)?;
    Ok(Given::At(from))
}

/// Whether a write gives the old value.
fn is_swap(room: &Room, number: ExprId) -> bool {
    matches!(room.arena.expr(number).expr, Expr::Swap { .. })
}

/// A write to a variable of what this gave.
pub fn write_variable(
    room: &Room,
    work: &mut Work,
    number: ExprId,
    variable: u32,
    given: Given,
) -> Result<Given, LowerFault> {
    let Some(from) = work.settle(room, given, room.line_of(number))? else {
        return Ok(Given::Ends);
    };
    if is_swap(room, number) {
        swap_variable(room, work, number, variable, from)
    } else {
        set_variable(room, work, number, variable, from)
    }
}

/// Writes a field with the operand behind a mark, and gives the register of the old value.
fn store_field(
    room: &Room,
    work: &mut Work,
    number: ExprId,
    place: ExprId,
    root: Root,
    mark: usize,
) -> Result<u32, LowerFault> {
    let Some((base, field)) = field_of(room, place) else {
        return Err(LowerFault::Unsound(Unsound::Node(place)));
    };
    let object = find_path(room, work, base, root)?.register();
    let operands = work.body.take_operands(mark)?;
    let from = first_of(&operands);
    let to = work.body.free();
    work.body.emit(
        room.line_of(number),
        Instr::Store {
            to,
            object,
            field,
            from,
        },
    )?;
    Ok(to)
}

/// A write to a field, of the operand behind a mark.
pub fn write_field(
    room: &Room,
    work: &mut Work,
    number: ExprId,
    place: ExprId,
    root: Root,
    mark: usize,
) -> Result<Given, LowerFault> {
    let old = store_field(room, work, number, place, root, mark)?;
    if is_swap(room, number) {
        return Ok(Given::At(old));
    }
    if !room.is_value(place) {
        let line = room.line_of(number);
        work.body.emit(line, Instr::Drop { from: old })?;
    }
    Ok(Given::Nil)
}
