//! How many registers an instruction needs.

use ink_code::Instr;

/// The registers up to this one.
fn up_to(register: u32) -> u32 {
    register.saturating_add(1)
}

/// The registers up to the greatest of these.
fn up_to_all(registers: &[u32]) -> u32 {
    let mut needed = 0;
    for register in registers {
        needed = up_to(*register).max(needed);
    }
    needed
}

/// The registers up to the greatest of two.
fn up_to_two(one: u32, other: u32) -> u32 {
    up_to(one.max(other))
}

/// How many registers a method with this instruction needs: one more than the greatest that it names.
pub(crate) fn registers_needed(instr: &Instr) -> u32 {
    match instr {
        Instr::Const { to, .. } => up_to(*to),
        Instr::Move { to, from } => up_to_two(*to, *from),
        Instr::Copy { to, from } => up_to_two(*to, *from),
        Instr::Borrow { to, from } => up_to_two(*to, *from),
        Instr::Exchange { one, other } => up_to_two(*one, *other),
        Instr::MyProc { to } => up_to(*to),
        Instr::Make { to, fields, .. } => up_to(*to).max(up_to_all(fields.as_slice())),
        Instr::MakeArray { to, items } => up_to(*to).max(up_to_all(items.as_slice())),
        Instr::Load { to, object, .. } => up_to_two(*to, *object),
        Instr::LoadBorrow { to, object, .. } => up_to_two(*to, *object),
        Instr::Store {
            to,
            object,
            from,
            ..
        } => up_to_two(*to, *object).max(up_to(*from)),
        Instr::Tag { to, object } => up_to_two(*to, *object),
        Instr::TakeApart { to, object } => up_to(*object).max(up_to_all(to.as_slice())),
        _ => registers_needed_to_go(instr),
    }
}

/// The same, of an instruction that drops, goes elsewhere, calls or acts.
fn registers_needed_to_go(instr: &Instr) -> u32 {
    match instr {
        Instr::Drop { from } => up_to(*from),
        Instr::DropMaybe { from } => up_to(*from),
        Instr::JumpIf { on, .. } => up_to(*on),
        Instr::Invoke { to, arguments, .. } => up_to(*to).max(up_to_all(arguments.as_slice())),
        Instr::InvokeBound { to, arguments, .. } => {
            up_to(*to).max(up_to_all(arguments.as_slice()))
        }
        Instr::Return { from } => up_to(*from),
        Instr::Prim { to, operands, .. } => up_to(*to).max(up_to_all(operands.as_slice())),
        Instr::Panic { text } => up_to(*text),
        Instr::Spawn { to, fields, .. } => up_to(*to).max(up_to_all(fields.as_slice())),
        Instr::Send {
            process,
            arguments,
            ..
        } => up_to(*process).max(up_to_all(arguments.as_slice())),
        Instr::Print { text } => up_to(*text),
        Instr::FutureNew { future, promise } => up_to_two(*future, *promise),
        Instr::FutureGet { to, future } => up_to_two(*to, *future),
        Instr::PromiseSet { promise, from } => up_to_two(*promise, *from),
        _ => 0,
    }
}
