//! New objects, arrays and processes whose arguments were worked.

use crate::room::Room;
use crate::work::Work;
use ink_base::Items;
use ink_code::Instr;
use ink_emit::{Given, LowerFault, Unsound};
use ink_forms::{Argument, ExprId};
use ink_members::field_place;
use ink_names::{KindId, Resolution};
use std::alloc::AllocError;

/// The place of the field that an argument is for: that of its name, or its own.
fn place_of(room: &Room, kind: KindId, index: usize, argument: &Argument) -> usize {
    match argument.label {
        Some(label) => match field_place(room.tables(), kind, label.name) {
            Some(place) => place as usize,
            None => index,
        },
        None => index,
    }
}

/// The register of the argument for the field at a place. Each field has one.
fn field_register(
    room: &Room,
    kind: KindId,
    arguments: &[Argument],
    operands: &[u32],
    place: usize,
) -> Option<u32> {
    for (index, argument) in arguments.iter().enumerate() {
        if place_of(room, kind, index, argument) == place {
            return operands.get(index).copied();
        }
    }
    None
}

/// The registers of arguments in the order in which the fields are declared.
fn declared_order(
    room: &Room,
    kind: KindId,
    arguments: &[Argument],
    operands: &[u32],
) -> Result<Items<u32>, AllocError> {
    let mut fields = Vec::new(room.context.alloc);
    for place in 0..arguments.len() {
        if let Some(register) = field_register(room, kind, arguments, operands, place) {
            fields.push(register)?;
        }
    }
    Ok(Items::of(fields))
}

/// A new object, or a new process where its type is async, whose arguments are held behind a mark.
pub fn give_new(
    room: &Room,
    work: &mut Work,
    number: ExprId,
    arguments: &[Argument],
    mark: usize,
) -> Result<Given, LowerFault> {
    let Resolution::Constructor { kind, index } = room.resolution(number) else {
        return Err(LowerFault::Unsound(Unsound::Node(number)));
    };
    let operands = work.body.take_operands(mark)?;
    let fields = declared_order(room, kind, arguments, operands.as_slice())?;
    let to = work.body.free();
    let instr = if room.types().is_async(kind) {
        Instr::Spawn { to, kind, fields }
    } else {
        Instr::Make {
            to,
            kind,
            tag: index,
            fields,
        }
    };
    work.body.emit(room.line_of(number), instr)?;
    Ok(Given::At(to))
}

/// A new array of these items.
pub(crate) fn give_array(
    work: &mut Work,
    line: u32,
    items: Items<u32>,
) -> Result<Given, LowerFault> {
    let to = work.body.free();
    work.body.emit(line, Instr::MakeArray { to, items })?;
    Ok(Given::At(to))
}
