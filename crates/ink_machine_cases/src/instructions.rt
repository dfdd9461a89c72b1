//! Instructions by their names and operands, in the words of a listing.

use ink_base::Items;
use ink_code::Instr;
use std::alloc::{AllocError, Global};

/// The instruction with one operand.
fn of_one(name: &str, one: u32) -> Option<Instr> {
    match name {
        "MyProc" => Some(Instr::MyProc { to: one }),
        "Drop" => Some(Instr::Drop { from: one }),
        "DropMaybe" => Some(Instr::DropMaybe { from: one }),
        "Jump" => Some(Instr::Jump { place: one }),
        "Return" => Some(Instr::Return { from: one }),
        "Panic" => Some(Instr::Panic { text: one }),
        "Print" => Some(Instr::Print { text: one }),
        _ => None,
    }
}

/// The instruction with two operands, of which the first is the register that gets something.
fn to_register(name: &str, to: u32, other: u32) -> Option<Instr> {
    match name {
        "Const" => Some(Instr::Const {
            to,
            constant: other,
        }),
        "Move" => Some(Instr::Move { to, from: other }),
        "Copy" => Some(Instr::Copy { to, from: other }),
        "Borrow" => Some(Instr::Borrow { to, from: other }),
        "Tag" => Some(Instr::Tag { to, object: other }),
        "FutureGet" => Some(Instr::FutureGet { to, future: other }),
        _ => None,
    }
}

/// The instruction with two operands.
fn of_two(name: &str, one: u32, other: u32) -> Option<Instr> {
    match name {
        "Exchange" => Some(Instr::Exchange { one, other }),
        "JumpIf" => Some(Instr::JumpIf {
            on: one,
            place: other,
        }),
        "FutureNew" => Some(Instr::FutureNew {
            future: one,
            promise: other,
        }),
        "PromiseSet" => Some(Instr::PromiseSet {
            promise: one,
            from: other,
        }),
        _ => to_register(name, one, other),
    }
}

/// The instruction with a field of an object.
fn of_field(name: &str, to: u32, object: u32, field: u32) -> Option<Instr> {
    match name {
        "Load" => Some(Instr::Load { to, object, field }),
        "LoadBorrow" => Some(Instr::LoadBorrow { to, object, field }),
        _ => None,
    }
}

/// The instruction that has a fixed number of operands.
fn fixed(name: &str, operands: &[u32]) -> Option<Instr> {
    match operands {
        [one] => of_one(name, *one),
        [one, other] => of_two(name, *one, *other),
        [to, object, field] => of_field(name, *to, *object, *field),
        [to, object, field, from] if name == "Store" => Some(Instr::Store {
            to: *to,
            object: *object,
            field: *field,
            from: *from,
        }),
        _ => None,
    }
}

/// The instruction with two operands and a list behind them.
fn with_list(name: &str, one: u32, other: u32, list: Items<u32>) -> Option<Instr> {
    match name {
        "Invoke" => Some(Instr::Invoke {
            to: one,
            method: other,
            arguments: list,
        }),
        "InvokeBound" => Some(Instr::InvokeBound {
            to: one,
            slot: other,
            arguments: list,
        }),
        "Prim" => Some(Instr::Prim {
            row: one,
            to: other,
            operands: list,
        }),
        "Spawn" => Some(Instr::Spawn {
            to: one,
            kind: other,
            fields: list,
        }),
        "Send" => Some(Instr::Send {
            process: one,
            method: other,
            arguments: list,
        }),
        _ => None,
    }
}

/// The numbers of a list.
fn list(alloc: Global, numbers: &[u32]) -> Result<Items<u32>, AllocError> {
    Ok(Items::of(Vec::from_slice(alloc, numbers)?))
}

/// The instruction that ends with a list of operands, or has one in front.
fn listed(alloc: Global, name: &str, operands: &[u32]) -> Result<Option<Instr>, AllocError> {
    Ok(match operands {
        [to, items @ ..] if name == "MakeArray" => Some(Instr::MakeArray {
            to: *to,
            items: list(alloc, items)?,
        }),
        [to @ .., object] if name == "TakeApart" => Some(Instr::TakeApart {
            to: list(alloc, to)?,
            object: *object,
        }),
        [to, kind, tag, fields @ ..] if name == "Make" => Some(Instr::Make {
            to: *to,
            kind: *kind,
            tag: *tag,
            fields: list(alloc, fields)?,
        }),
        [one, other, rest @ ..] => with_list(name, *one, *other, list(alloc, rest)?),
        _ => None,
    })
}

/// The instruction of that name with these operands, in the order of a listing. `None` where there is no such one.
pub fn instruction(
    alloc: Global,
    name: &str,
    operands: &[u32],
) -> Result<Option<Instr>, AllocError> {
    match fixed(name, operands) {
        Some(instr) => Ok(Some(instr)),
        None => listed(alloc, name, operands),
    }
}
