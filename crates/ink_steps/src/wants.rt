//! The instructions that want an action.
ghost use Rattle.std.specs.Prelude.{◌≡◌, length, IfErr, List, OnOk, Result};
ghost use Rattle.ink_code.specs.declared.frame.Frame.{Frame};
ghost use Rattle.ink_code.specs.Moves.{text_of};
ghost use Rattle.ink_code.specs.Process.{taken_out};
ghost use Rattle.ink_code.specs.Trees.{parted_of};
ghost use Rattle.ink_code.specs.Wanted.{future_get_step, future_new_step, future_of, print_step, process_of, promise_of, promise_set_step, send_step, spawn_step};
ghost use Rattle.ink_steps.specs.Answers.{Finds, IsCut, IsStep};
ghost use Rattle.ink_proc.specs.State.{state_of};

use crate::reads::{register_copy, register_value, text_of};
use crate::stepped::{Request, StepFault, Stepped};
use ink_base::{Items, Value};
use ink_code::{Code, Wrong};
use ink_parcel::{CutFault, Parcel, cut};
use ink_proc::Proc;
use std::alloc::Global;

/// The process that a value refers to.
fn process_of(value: &Value) -> Result<u32, StepFault>
    ensures { Finds (process_of value.now) result }
{
    match value {
        Value::Proc(process) => Ok(*process),
        _ => Err(StepFault::Wrong(Wrong::Kind)),
    }
}

/// The future that a value is.
fn future_of(value: &Value) -> Result<u32, StepFault>
    ensures { Finds (future_of value.now) result }
{
    match value {
        Value::Future(future) => Ok(*future),
        _ => Err(StepFault::Wrong(Wrong::Kind)),
    }
}

/// The future whose promise a value is.
fn promise_of(value: &Value) -> Result<u32, StepFault>
    ensures { Finds (promise_of value.now) result }
{
    match value {
        Value::Promise(future) => Ok(*future),
        _ => Err(StepFault::Wrong(Wrong::Kind)),
    }
}

/// A line of the output is wanted.
#[tactic(auto, unfolding(ink_code::specs::Wanted::print_step, ink_code::specs::Machine::after))]
pub fn print_step(alloc: Global, proc: &Proc, text: u32) -> Result<Stepped, StepFault>
    ensures { IsStep (print_step text) result proc.now proc.now }
{
    let value = register_copy(alloc, &proc.frames, text)?;
    let line = text_of(value)?;
    Ok(Stepped::Wants(Request::Print(line)))
}

/// A new future is wanted.
#[tactic(auto, unfolding(ink_code::specs::Wanted::future_new_step, ink_code::specs::Machine::given))]
pub fn future_new_step(proc: &Proc, future: u32, promise: u32) -> Result<Stepped, StepFault>
    ensures { IsStep (future_new_step future promise) result proc.now proc.now }
{
    if proc.frames.has(future) && proc.frames.has(promise) {
        Ok(Stepped::Wants(Request::NewFuture))
    } else {
        Err(StepFault::Wrong(Wrong::Absent))
    }
}

/// The value of a future is wanted. The register keeps the future until it comes.
#[tactic(auto, unfolding(ink_code::specs::Wanted::future_get_step, ink_code::specs::Machine::given, ink_code::specs::Machine::after))]
pub fn future_get_step(
    alloc: Global,
    proc: &Proc,
    to: u32,
    future: u32,
) -> Result<Stepped, StepFault>
    ensures { IsStep (future_get_step to future) result proc.now proc.now }
{
    if !proc.frames.has(to) {
        return Err(StepFault::Wrong(Wrong::Absent));
    }
    let value = register_copy(alloc, &proc.frames, future)?;
    let future = future_of(&value)?;
    Ok(Stepped::Wants(Request::GetFuture { future }))
}

/// Values are cut out with the objects of their tree. Where this can't be, they go back to the registers out of which
/// they were moved.
fn cut_out(
    alloc: Global,
    proc: &mut Proc,
    numbers: &[u32],
    values: Items<Value>,
) -> Result<Parcel, StepFault>
    requires { length values ≡ length numbers.now }
    ensures parted { IsCut (parted_of values proc.old.heap.objects) result values proc.new.heap.objects }
    ensures frames { OnOk result (proc.new.frames ≡ proc.old.frames) }
    ensures rest { state_of proc.new ≡ record (state_of proc.old) { frames = proc.new.frames; objects = proc.new.heap.objects } }
    ensures back { IfErr result (λ fault. fault ≡ StepFault.OutOfMemory → (proc.new.heap.objects ≡ proc.old.heap.objects) × ((before : List Frame) → taken_out numbers.now before ≡ Result.Ok (values, proc.old.frames) → proc.new.frames ≡ before)) }
{
    match cut(alloc, &mut proc.heap, values) {
        Ok(parcel) => Ok(parcel),
        Err(CutFault::Absent(_)) => Err(StepFault::Wrong(Wrong::Object)),
        Err(CutFault::OutOfMemory(values)) => {
            proc.frames.put_back(numbers, values);
            Err(StepFault::OutOfMemory)
        }
    }
}

/// A new process of a type is wanted, with these fields of its state.
#[tactic(auto, unfolding(ink_code::specs::Wanted::spawn_step, ink_code::specs::Machine::given, ink_code::specs::Machine::after))]
pub fn spawn_step(
    alloc: Global,
    proc: &mut Proc,
    to: u32,
    kind: u32,
    fields: &[u32],
) -> Result<Stepped, StepFault>
    ensures { IsStep (spawn_step to kind fields.now) result proc.old proc.new }
{
    if !proc.frames.has(to) {
        return Err(StepFault::Wrong(Wrong::Absent));
    }
    let room = Vec::with_capacity(alloc, fields.len())?;
    let values = proc.frames.take_out(room, fields)?;
    let fields = cut_out(alloc, proc, fields, values)?;
    Ok(Stepped::Wants(Request::Spawn { kind, fields }))
}

/// A message to a process is wanted, with a method that is there.
#[tactic(auto, unfolding(ink_code::specs::Wanted::send_step, ink_code::specs::Machine::given, ink_code::specs::Machine::after))]
pub fn send_step(
    alloc: Global,
    proc: &mut Proc,
    code: &Code,
    process: u32,
    method: u32,
    arguments: &[u32],
) -> Result<Stepped, StepFault>
    ensures { IsStep (send_step code.now process method arguments.now) result proc.old proc.new }
{
    if code.methods.get(u64::from(method)).is_none() {
        return Err(StepFault::Wrong(Wrong::Absent));
    }
    let to = process_of(register_value(&proc.frames, process)?)?;
    let room = Vec::with_capacity(alloc, arguments.len())?;
    let values = proc.frames.take_out(room, arguments)?;
    let values = cut_out(alloc, proc, arguments, values)?;
    Ok(Stepped::Wants(Request::Send { to, method, values }))
}

/// A value is to be set at a promise, which is used up.
#[tactic(auto, unfolding(ink_code::specs::Wanted::promise_set_step, ink_code::specs::Machine::after))]
pub fn promise_set_step(
    alloc: Global,
    proc: &mut Proc,
    promise: u32,
    from: u32,
) -> Result<Stepped, StepFault>
    ensures { IsStep (promise_set_step promise from) result proc.old proc.new }
{
    let future = promise_of(register_value(&proc.frames, promise)?)?;
    let room = Vec::with_capacity(alloc, 1)?;
    proc.frames.take(promise)?;
    let values = proc.frames.take_out(room, &[from])?;
    match cut_out(alloc, proc, &[from], values) {
        Ok(value) => Ok(Stepped::Wants(Request::SetFuture { future, value })),
        Err(fault) => {
            proc.frames.give_back(promise, Value::Promise(future));
            Err(fault)
        }
    }
}
