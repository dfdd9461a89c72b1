//! The instructions that begin and end frames.
ghost use Rattle.std.specs.Prelude.{◌≡◌, length, slice_get, IsTrue, Option};
ghost use Rattle.std.specs.Option.{option_copied};
ghost use Rattle.ink_code.specs.Calls.{first_register, invoke_bound_step, invoke_step, method_in, return_step, target_of};
ghost use Rattle.ink_code.specs.Process.{held};
ghost use Rattle.ink_base.specs.declared.limits.Limit.TheVariants as limit;
ghost use Rattle.ink_base.specs.Actions.{reached};
ghost use Rattle.ink_steps.specs.Answers.{ChangesFrames, EndsFrame, IsStep, MayStep};

use crate::reads::{object_of, register_value};
use crate::stepped::{StepFault, Stepped};
use ink_base::{Limit, Limits, Value};
use ink_code::{Code, Frame, Impl, Instr, Wrong};
use ink_proc::{EnterFault, Frames, Proc};
use ink_rows::texts::reached_text;
use std::alloc::Global;

/// A method is called with the values of registers.
#[tactic(auto, unfolding(ink_code::specs::Calls::invoke_step, ink_code::specs::Machine::given, ink_code::specs::Machine::unless_text, ink_code::specs::Machine::after))]
pub fn invoke_step(
    alloc: Global,
    proc: &mut Proc,
    code: &Code,
    limits: &Limits,
    to: u32,
    method: u32,
    arguments: &[u32],
) -> Result<Stepped, StepFault>
    requires { MayStep proc.old }
    ensures { IsStep (invoke_step code.now limits.now to method arguments.now) result proc.old proc.new }
{
    if !proc.frames.has(to) {
        return Err(StepFault::Wrong(Wrong::Absent));
    }
    let called = match code.methods.get(u64::from(method)) {
        None => return Err(StepFault::Wrong(Wrong::Absent)),
        Some(called) => called,
    };
    if let Some(text) = reached_text(alloc, limits, Limit::Frames, proc.frames.len())? {
        return Ok(Stepped::Panics(text));
    }
    match proc
        .frames
        .enter(alloc, method, called.registers, arguments)
    {
        Err(EnterFault::Wrong(why)) => Err(StepFault::Wrong(why)),
        Err(EnterFault::OutOfMemory) => Err(StepFault::OutOfMemory),
        Ok(()) => {
            proc.ran += 1;
            Ok(Stepped::Went)
        }
    }
}

/// Whether there may be a frame more.
fn may_enter(limits: &Limits, frames: &Frames) -> bool
    ensures { IsTrue result → reached limit.Frames (length frames.now) limits.now ≡ Option.None }
{
    limits.get(Limit::Frames) > frames.len()
}

/// A method is called with the values of registers, where nothing keeps its frame from being made. Else all is as before.
#[tactic(auto, unfolding(ink_code::specs::Calls::invoke_step, ink_code::specs::Machine::given, ink_code::specs::Machine::unless_text, ink_code::specs::Machine::after))]
pub fn call_if_room(
    alloc: Global,
    frames: &mut Frames,
    code: &Code,
    limits: &Limits,
    to: u32,
    method: u32,
    arguments: &[u32],
) -> Result<bool, Wrong>
    ensures { ChangesFrames (invoke_step code.now limits.now to method arguments.now) result frames.old frames.new }
{
    if !frames.has(to) {
        return Ok(false);
    }
    let called = match code.methods.get(u64::from(method)) {
        None => return Ok(false),
        Some(called) => called,
    };
    if !may_enter(limits, frames) {
        return Ok(false);
    }
    match frames.enter(alloc, method, called.registers, arguments) {
        Err(EnterFault::Wrong(why)) => Err(why),
        Err(EnterFault::OutOfMemory) => Ok(false),
        Ok(()) => Ok(true),
    }
}

/// The first of some registers.
fn first_register(arguments: &[u32]) -> Option<u32>
    ensures { result ≡ first_register arguments.now }
{
    if arguments.is_empty() {
        None
    } else {
        Some(arguments[0])
    }
}

/// The method that a type has in a slot, by the first of the impls that tells one.
#[tactic(auto, unfolding(ink_code::specs::Calls::method_in))]
fn method_in(impls: &[Impl], kind: u32, slot: u32) -> Option<u32>
    ensures { result ≡ method_in impls.now kind slot }
{
    for told in impls {
        if told.kind == kind && told.slot == slot {
            return Some(told.method);
        }
    }
    None
}

/// The method is called that the type of the first argument's object has in a slot.
#[tactic(auto, unfolding(ink_code::specs::Calls::invoke_bound_step, ink_code::specs::Objects::object_at, ink_code::specs::Machine::given, ink_code::specs::Machine::after))]
pub fn invoke_bound_step(
    alloc: Global,
    proc: &mut Proc,
    code: &Code,
    limits: &Limits,
    to: u32,
    slot: u32,
    arguments: &[u32],
) -> Result<Stepped, StepFault>
    requires { MayStep proc.old }
    ensures { IsStep (invoke_bound_step code.now limits.now to slot arguments.now) result proc.old proc.new }
{
    let first = match first_register(arguments) {
        None => return Err(StepFault::Wrong(Wrong::Absent)),
        Some(first) => first,
    };
    let id = object_of(register_value(&proc.frames, first)?)?;
    let kind = match proc.heap.kind_of(&id) {
        None => return Err(StepFault::Wrong(Wrong::Object)),
        Some((kind, _tag)) => kind,
    };
    match method_in(code.impls.as_slice(), kind, slot) {
        None => Err(StepFault::Wrong(Wrong::Absent)),
        Some(method) => invoke_step(alloc, proc, code, limits, to, method, arguments),
    }
}

/// The register to which the value of a call goes.
fn target_of(instr: Option<&Instr>) -> Option<u32>
    ensures { result ≡ target_of (option_copied instr.entry) }
{
    match instr {
        Some(Instr::Invoke { to, .. }) | Some(Instr::InvokeBound { to, .. }) => Some(*to),
        _ => None,
    }
}

/// The value in a register of a frame that has ended.
fn value_of(mut frame: Frame, number: u32) -> Result<Value, Wrong>
    ensures { result ≡ held (slice_get frame.registers number) }
{
    match frame.registers.get(u64::from(number)) {
        None => Err(Wrong::Absent),
        Some(Value::Empty) => Err(Wrong::Empty),
        Some(_) => Ok(frame.registers.set(u64::from(number), Value::Empty)),
    }
}

/// The innermost frame ends with the value of a register.
#[tactic(auto, unfolding(ink_code::specs::Calls::return_step, ink_code::specs::Machine::given, ink_code::specs::Machine::after))]
pub fn end_frame(frames: &mut Frames, code: &Code, from: u32) -> Result<(), Wrong>
    ensures { EndsFrame (return_step code.now from) result frames.old frames.new }
{
    let frame = match frames.pop() {
        None => return Err(Wrong::Absent),
        Some(frame) => frame,
    };
    let value = match value_of(frame, from) {
        Err(why) => return Err(why),
        Ok(value) => value,
    };
    let outer = match frames.top() {
        None => return Ok(()),
        Some(outer) => outer,
    };
    let next = outer.place;
    match target_of(code.fetch(outer.method, outer.place)) {
        None => Err(Wrong::Absent),
        Some(to) => {
            frames.set(to, value);
            frames.go_on(next + 1);
            Ok(())
        }
    }
}

/// The same, as a step.
pub fn return_step(proc: &mut Proc, code: &Code, from: u32) -> Result<Stepped, StepFault>
    requires { MayStep proc.old }
    ensures { IsStep (return_step code.now from) result proc.old proc.new }
{
    match end_frame(&mut proc.frames, code, from) {
        Err(why) => Err(StepFault::Wrong(why)),
        Ok(()) => {
            proc.ran += 1;
            Ok(Stepped::Went)
        }
    }
}
