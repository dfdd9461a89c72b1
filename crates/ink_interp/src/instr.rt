//! Which step an instruction is.
ghost use Rattle.ink_code.specs.Step.{instr_step};
ghost use Rattle.ink_steps.specs.Answers.{IsStep, MayStep};

use crate::prim::prim_step;
use ink_base::Limits;
use ink_code::{Code, Instr};
use ink_proc::Proc;
use ink_steps::{
    StepFault, Stepped, borrow_step, const_step, copy_step, drop_maybe_step, drop_step,
    exchange_step, future_get_step, future_new_step, invoke_bound_step, invoke_step, jump_if_step,
    jump_step, load_borrow_step, load_step, make_array_step, make_step, move_step, my_proc_step,
    panic_step, print_step, promise_set_step, return_step, send_step, spawn_step, store_step,
    tag_step, take_apart_step,
};
use std::alloc::Global;

/// What one instruction does, behind which the frame goes on at `next`.
#[tactic(auto, unfolding(ink_code::specs::Step::instr_step))]
pub(crate) fn instr_step(
    alloc: Global,
    proc: &mut Proc,
    code: &Code,
    limits: &Limits,
    next: u32,
    instr: &Instr,
) -> Result<Stepped, StepFault>
    requires { MayStep proc.old }
    ensures { IsStep (instr_step code.now limits.now next instr.now) result proc.old proc.new }
{
    match instr {
        Instr::Const { to, constant } => const_step(alloc, proc, code, next, *to, *constant),
        Instr::Move { to, from } => move_step(proc, next, *to, *from),
        Instr::Copy { to, from } => copy_step(alloc, proc, next, *to, *from),
        Instr::Borrow { to, from } => borrow_step(alloc, proc, next, *to, *from),
        Instr::Exchange { one, other } => exchange_step(proc, next, *one, *other),
        Instr::MyProc { to } => my_proc_step(proc, next, *to),
        Instr::Make {
            to,
            kind,
            tag,
            fields,
        } => make_step(
            alloc,
            proc,
            limits,
            next,
            *to,
            *kind,
            *tag,
            fields.as_slice(),
        ),
        Instr::MakeArray { to, items } => make_array_step(
            alloc,
            proc,
            limits,
            next,
            *to,
            items.as_slice(),
        ),
        Instr::Load { to, object, field } => load_step(alloc, proc, next, *to, *object, *field),
        Instr::LoadBorrow { to, object, field } => load_borrow_step(
            alloc, proc, next, *to, *object, *field,
        ),
        Instr::Store {
            to,
            object,
            field,
            from,
        } => store_step(alloc, proc, next, *to, *object, *field, *from),
        Instr::Tag { to, object } => tag_step(alloc, proc, next, *to, *object),
        Instr::TakeApart { to, object } => take_apart_step(
            alloc,
            proc,
            code,
            next,
            to.as_slice(),
            *object,
        ),
        Instr::Drop { from } => drop_step(proc, *from),
        Instr::DropMaybe { from } => drop_maybe_step(proc, next, *from),
        Instr::Jump { place } => jump_step(proc, *place),
        Instr::JumpIf { on, place } => jump_if_step(alloc, proc, next, *on, *place),
        Instr::Invoke {
            to,
            method,
            arguments,
        } => invoke_step(
            alloc,
            proc,
            code,
            limits,
            *to,
            *method,
            arguments.as_slice(),
        ),
        Instr::InvokeBound {
            to,
            slot,
            arguments,
        } => invoke_bound_step(alloc, proc, code, limits, *to, *slot, arguments.as_slice()),
        Instr::Return { from } => return_step(proc, code, *from),
        Instr::Prim { row, to, operands } => prim_step(
            alloc,
            proc,
            code,
            limits,
            next,
            *row,
            *to,
            operands.as_slice(),
        ),
        Instr::Panic { text } => panic_step(alloc, proc, *text),
        Instr::Spawn { to, kind, fields } => spawn_step(alloc, proc, *to, *kind, fields.as_slice()),
        Instr::Send {
            process,
            method,
            arguments,
        } => send_step(alloc, proc, code, *process, *method, arguments.as_slice()),
        Instr::Print { text } => print_step(alloc, proc, *text),
        Instr::FutureNew { future, promise } => future_new_step(proc, *future, *promise),
        Instr::FutureGet { to, future } => future_get_step(alloc, proc, *to, *future),
        Instr::PromiseSet { promise, from } => promise_set_step(alloc, proc, *promise, *from),
    }
}
