//! Receivers as operands.

use crate::paths::{Base, Root, find_path};
use crate::room::Room;
use crate::work::Work;
use ink_base::Items;
use ink_code::Instr;
use ink_emit::{Holding, LowerFault};
use ink_forms::ExprId;
use std::alloc::{AllocError, Global};

/// A call of a method of a value, whose receiver's root and arguments were worked.
#[derive(Clone, Copy)]
pub struct Called {
    pub number: ExprId,
    pub receiver: ExprId,
    pub root: Root,
    /// How many registers were held before the call.
    pub mark: usize,
    pub line: u32,
}

/// The operands of a call: its receiver, and behind it the arguments in order.
#[derive(Drop)]
pub(crate) struct Operands {
    pub receiver: u32,
    pub arguments: Vec<u32>,
}

/// How a receiver in a register that stays comes to be an operand: one that is given away is moved, a value is copied, and
/// anything else is borrowed. In an async type `self` is borrowed too: it is the state.
fn receiver_read(room: &Room, called: Called, to: u32, from: u32) -> Instr {
    if room.moves_receiver(called.number) {
        Instr::Move { to, from }
    } else if room.is_value(called.receiver) && !room.is_self(called.receiver) {
        Instr::Copy { to, from }
    } else {
        Instr::Borrow { to, from }
    }
}

/// Makes an operand of a receiver that was found, and gives its register.
fn hold_receiver(
    room: &Room,
    work: &mut Work,
    called: Called,
    base: Base,
) -> Result<u32, LowerFault> {
    match base {
        Base::Operand(register) => Ok(register),
        Base::Fresh(register) => {
            work.body.hold(register, Holding::Operand)?;
            Ok(register)
        }
        Base::Stays(from) => {
            let to = work.body.free();
            let instr = receiver_read(room, called, to, from);
            work.body.emit(called.line, instr)?;
            work.body.hold(to, Holding::Operand)?;
            Ok(to)
        }
    }
}

/// The registers of a list without this one.
fn others(alloc: Global, receiver: u32, operands: &[u32]) -> Result<Vec<u32>, AllocError> {
    let mut arguments = Vec::new(alloc);
    for operand in operands {
        if *operand != receiver {
            arguments.push(*operand)?;
        }
    }
    Ok(arguments)
}

/// The operands behind a mark, of which this one is the receiver.
pub(crate) fn taken_operands(
    room: &Room,
    work: &mut Work,
    mark: usize,
    receiver: u32,
) -> Result<Operands, LowerFault> {
    let taken = work.body.take_operands(mark)?;
    let arguments = others(room.context.alloc, receiver, taken.as_slice())?;
    Ok(Operands {
        receiver,
        arguments,
    })
}

/// The operands of a call, behind the work on its receiver's root and its arguments.
pub(crate) fn operands_of(
    room: &Room,
    work: &mut Work,
    called: Called,
) -> Result<Operands, LowerFault> {
    let base = find_path(room, work, called.receiver, called.root)?;
    let receiver = hold_receiver(room, work, called, base)?;
    taken_operands(room, work, called.mark, receiver)
}

impl Operands {
    /// All of them, the receiver first.
    pub fn all(&self, alloc: Global) -> Result<Items<u32>, AllocError> {
        let mut all = Vec::new(alloc);
        all.push(self.receiver)?;
        all.extend_from_slice(&self.arguments)?;
        Ok(Items::of(all))
    }

    /// The first argument. Each method that asks for it has one.
    pub fn argument(&self) -> u32 {
        match self.arguments.first() {
            Some(argument) => *argument,
            None => 0,
        }
    }
}
