//! What an instruction names.
ghost use Rattle.std.specs.Prelude.{◌↔◌, IsTrue};
ghost use Rattle.ink_ranges.specs.Ranges as spec;

use crate::sizes::Sizes;
use ink_base::Items;
use ink_code::Instr;

/// Whether each of some numbers is below a bound.
fn are_below(numbers: &[u32], bound: u32) -> bool
    ensures { IsTrue result ↔ spec.AreBelow bound numbers.now }
{
    numbers.iter().all(|number| *number < bound)
}

/// Whether a row is there and is no action.
fn is_plain_row(row: u32) -> bool
    ensures { IsTrue result ↔ spec.IsPlainRow row }
{
    row < 43 || row == 47
}

/// Whether an instruction names nothing beyond these sizes.
pub(crate) fn is_instr_within(instr: &Instr, sizes: Sizes) -> bool
    ensures { IsTrue result ↔ spec.IsInstrWithin sizes instr.now }
{
    let registers = sizes.registers;
    match instr {
        Instr::Const { to, constant } => { *to < registers && (*constant as u64) < sizes.constants }
        Instr::Move { to, from } => *to < registers && *from < registers,
        Instr::Copy { to, from } => *to < registers && *from < registers,
        Instr::Borrow { to, from } => *to < registers && *from < registers,
        Instr::Exchange { one, other } => *one < registers && *other < registers,
        Instr::MyProc { to } => *to < registers,
        Instr::Drop { from } => *from < registers,
        Instr::DropMaybe { from } => *from < registers,
        Instr::Jump { place } => (*place as u64) < sizes.places,
        Instr::JumpIf { on, place } => *on < registers && (*place as u64) < sizes.places,
        _ => is_object_within(instr, sizes),
    }
}

/// The same, of an instruction that makes, reads or writes an object.
fn is_object_within(instr: &Instr, sizes: Sizes) -> bool
    ensures { IsTrue result ↔ spec.IsObjectWithin sizes instr.now }
{
    let registers = sizes.registers;
    match instr {
        Instr::Make {
            to,
            kind,
            fields,
            ..
        } => {
            *to < registers
                && (*kind as u64) < sizes.kinds
                && are_below(fields.as_slice(), registers)
        }
        Instr::MakeArray { to, items } => *to < registers && are_below(items.as_slice(), registers),
        Instr::Load { to, object, .. } => *to < registers && *object < registers,
        Instr::LoadBorrow { to, object, .. } => *to < registers && *object < registers,
        Instr::Store {
            to,
            object,
            from,
            ..
        } => *to < registers && *object < registers && *from < registers,
        Instr::Tag { to, object } => *to < registers && *object < registers,
        Instr::TakeApart { to, object } => {
            are_below(to.as_slice(), registers) && *object < registers
        }
        _ => is_call_within(instr, sizes),
    }
}

/// The same, of an instruction that calls, returns or computes.
fn is_call_within(instr: &Instr, sizes: Sizes) -> bool
    ensures { IsTrue result ↔ spec.IsCallWithin sizes instr.now }
{
    let registers = sizes.registers;
    match instr {
        Instr::Invoke {
            to,
            method,
            arguments,
        } => {
            *to < registers
                && (*method as u64) < sizes.methods
                && are_below(arguments.as_slice(), registers)
        }
        Instr::InvokeBound { to, arguments, .. } => {
            *to < registers && are_below(arguments.as_slice(), registers)
        }
        Instr::Return { from } => *from < registers,
        Instr::Prim { row, to, operands } => {
            is_plain_row(*row) && *to < registers && are_below(operands.as_slice(), registers)
        }
        _ => is_action_within(instr, sizes),
    }
}

/// The same, of an instruction that acts. No other is.
fn is_action_within(instr: &Instr, sizes: Sizes) -> bool
    ensures { IsTrue result ↔ spec.IsActionWithin sizes instr.now }
{
    let registers = sizes.registers;
    match instr {
        Instr::Panic { text } => *text < registers,
        Instr::Spawn { to, kind, fields } => {
            *to < registers
                && (*kind as u64) < sizes.kinds
                && are_below(fields.as_slice(), registers)
        }
        Instr::Send {
            process,
            method,
            arguments,
        } => {
            *process < registers
                && (*method as u64) < sizes.methods
                && are_below(arguments.as_slice(), registers)
        }
        Instr::Print { text } => *text < registers,
        Instr::FutureNew { future, promise } => *future < registers && *promise < registers,
        Instr::FutureGet { to, future } => *to < registers && *future < registers,
        Instr::PromiseSet { promise, from } => *promise < registers && *from < registers,
        _ => false,
    }
}
