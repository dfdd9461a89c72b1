//! Calls whose arguments were worked.

use crate::makes::give_array;
use crate::paths::{Root, find_path};
use crate::receivers::{Called, Operands, operands_of, taken_operands};
use crate::room::Room;
use crate::work::Work;
use ink_base::Items;
use ink_code::Instr;
use ink_emit::{Given, Holding, LowerFault, Unsound};
use ink_findings::Target;
use ink_forms::{Expr, ExprId};
use ink_names::MethodNumber;
use ink_types::TUPLE2;

/// The rows that are actions, by their numbers in the table of built-in methods.
const FUTURE_GET: u32 = 43;

const PROMISE_SET: u32 = 44;

const FUTURE_NEW: u32 = 45;

const STDOUT_PRINT: u32 = 46;

/// A call of a method of a value.
pub fn give_call(room: &Room, work: &mut Work, called: Called) -> Result<Given, LowerFault> {
    match room.target(called.number) {
        Some(Target::Method(method)) => {
            if room.is_message(Target::Method(method)) {
                give_message(room, work, called, method)
            } else {
                invoke_on(room, work, called, method)
            }
        }
        Some(Target::Bound(slot)) => {
            let operands = operands_of(room, work, called)?;
            let to = work.body.free();
            let arguments = operands.all(room.context.alloc)?;
            work.body.emit(
                called.line,
                Instr::InvokeBound {
                    to,
                    slot,
                    arguments,
                },
            )?;
            Ok(Given::At(to))
        }
        Some(Target::Row(row)) => give_row(room, work, called, row),
        None => Err(LowerFault::Unsound(Unsound::Node(called.number))),
    }
}

/// A call of a method with a body.
fn invoke_on(
    room: &Room,
    work: &mut Work,
    called: Called,
    method: MethodNumber,
) -> Result<Given, LowerFault> {
    let operands = operands_of(room, work, called)?;
    let arguments = operands.all(room.context.alloc)?;
    invoke(work, called.line, method, arguments)
}

/// A call with these arguments.
fn invoke(
    work: &mut Work,
    line: u32,
    method: MethodNumber,
    arguments: Items<u32>,
) -> Result<Given, LowerFault> {
    let to = work.body.free();
    work.body.emit(
        line,
        Instr::Invoke {
            to,
            method,
            arguments,
        },
    )?;
    Ok(Given::At(to))
}

/// The operands of a message. `self` is the reference to this process.
fn message_operands(room: &Room, work: &mut Work, called: Called) -> Result<Operands, LowerFault> {
    if !room.is_self(called.receiver) {
        return operands_of(room, work, called);
    }
    let to = work.body.free();
    work.body.emit(called.line, Instr::MyProc { to })?;
    work.body.hold(to, Holding::Operand)?;
    taken_operands(room, work, called.mark, to)
}

/// A message to a process.
fn give_message(
    room: &Room,
    work: &mut Work,
    called: Called,
    method: MethodNumber,
) -> Result<Given, LowerFault> {
    let Operands {
        receiver,
        arguments,
    } = message_operands(room, work, called)?;
    work.body.emit(
        called.line,
        Instr::Send {
            process: receiver,
            method,
            arguments: Items::of(arguments),
        },
    )?;
    Ok(Given::Nil)
}

/// A built-in method of a value.
fn give_row(room: &Room, work: &mut Work, called: Called, row: u32) -> Result<Given, LowerFault> {
    match row {
        STDOUT_PRINT => give_print(room, work, called),
        FUTURE_GET => {
            let operands = operands_of(room, work, called)?;
            let to = work.body.free();
            let future = operands.receiver;
            work.body
                .emit(called.line, Instr::FutureGet { to, future })?;
            Ok(Given::At(to))
        }
        PROMISE_SET => {
            let operands = operands_of(room, work, called)?;
            let promise = operands.receiver;
            let from = operands.argument();
            work.body
                .emit(called.line, Instr::PromiseSet { promise, from })?;
            Ok(Given::Nil)
        }
        _ => {
            let operands = operands_of(room, work, called)?;
            let all = operands.all(room.context.alloc)?;
            compute(work, called.line, row, all)
        }
    }
}

/// A row that is no action.
fn compute(
    work: &mut Work,
    line: u32,
    row: u32,
    operands: Items<u32>,
) -> Result<Given, LowerFault> {
    let to = work.body.free();
    work.body.emit(line, Instr::Prim { row, to, operands })?;
    Ok(Given::At(to))
}

/// The first of some operands. Each form that asks for it has one.
pub(crate) fn first_of(operands: &Items<u32>) -> u32 {
    match operands.get(0) {
        Some(operand) => *operand,
        None => 0,
    }
}

/// A line of the output. Nothing is done with the receiver but to find it.
fn give_print(room: &Room, work: &mut Work, called: Called) -> Result<Given, LowerFault> {
    find_path(room, work, called.receiver, called.root)?;
    let operands = work.body.take_operands(called.mark)?;
    let text = first_of(&operands);
    work.body.emit(called.line, Instr::Print { text })?;
    Ok(Given::Nil)
}

/// A new future and its promise, as a tuple.
fn give_future(work: &mut Work, line: u32) -> Result<Given, LowerFault> {
    let mark = work.body.mark();
    let future = work.body.free();
    work.body.hold(future, Holding::Operand)?;
    let promise = work.body.free();
    work.body.hold(promise, Holding::Operand)?;
    work.body.emit(line, Instr::FutureNew { future, promise })?;
    let fields = work.body.take_operands(mark)?;
    let to = work.body.free();
    let kind = TUPLE2;
    work.body.emit(
        line,
        Instr::Make {
            to,
            kind,
            tag: 0,
            fields,
        },
    )?;
    Ok(Given::At(to))
}

/// A call of a method of the module, or of a static method.
fn give_function(
    room: &Room,
    work: &mut Work,
    number: ExprId,
    operands: Items<u32>,
) -> Result<Given, LowerFault> {
    let line = room.line_of(number);
    match room.target(number) {
        Some(Target::Method(method)) => invoke(work, line, method, operands),
        Some(Target::Row(FUTURE_NEW)) => give_future(work, line),
        Some(Target::Row(row)) => compute(work, line, row, operands),
        _ => Err(LowerFault::Unsound(Unsound::Node(number))),
    }
}

/// A panic with a text.
fn give_panic(work: &mut Work, line: u32, operands: &Items<u32>) -> Result<Given, LowerFault> {
    let text = first_of(operands);
    work.body.emit(line, Instr::Panic { text })?;
    Ok(Given::Ends)
}

/// A form over a list of operands, which are held behind a mark.
pub fn give_listed(
    room: &Room,
    work: &mut Work,
    number: ExprId,
    mark: usize,
) -> Result<Given, LowerFault> {
    let line = room.line_of(number);
    let operands = work.body.take_operands(mark)?;
    match room.arena.expr(number).expr {
        Expr::Panic { .. } => give_panic(work, line, &operands),
        Expr::Arr { .. } => give_array(work, line, operands),
        _ => give_function(room, work, number, operands),
    }
}

/// A call whose receiver's root was worked.
pub fn called_on(room: &Room, number: ExprId, receiver: ExprId, root: Root, mark: usize) -> Called {
    Called {
        number,
        receiver,
        root,
        mark,
        line: room.line_of(number),
    }
}
