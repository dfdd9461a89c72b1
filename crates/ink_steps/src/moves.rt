//! The instructions that move values between registers, and those that jump.
ghost use Rattle.ink_code.specs.Moves.{borrow_step, const_step, copies, copy_step, exchange_step, jump_if_step, jump_step, move_step, my_proc_step, panic_step};
ghost use Rattle.ink_steps.specs.Answers.{IsStep, MayStep};

use crate::reads::{constant_copy, count_copy, go_on, register_copy, text_of, truth_of};
use crate::stepped::{StepFault, Stepped};
use ink_base::Value;
use ink_code::{Code, Wrong};
use ink_proc::{Proc, borrow_of};
use std::alloc::Global;

/// A register gets a constant.
#[tactic(auto, unfolding(ink_code::specs::Moves::const_step, ink_code::specs::Machine::given, ink_code::specs::Machine::after))]
pub fn const_step(
    alloc: Global,
    proc: &mut Proc,
    code: &Code,
    next: u32,
    to: u32,
    constant: u32,
) -> Result<Stepped, StepFault>
    requires { MayStep proc.old }
    ensures { IsStep (const_step code.now next to constant) result proc.old proc.new }
{
    if !proc.frames.has(to) {
        return Err(StepFault::Wrong(Wrong::Absent));
    }
    let value = match code.constants.get(u64::from(constant)) {
        None => return Err(StepFault::Wrong(Wrong::Absent)),
        Some(value) => constant_copy(alloc, value)?,
    };
    proc.frames.set(to, value);
    go_on(proc, next);
    Ok(Stepped::Went)
}

/// A register gets the value of another, which is empty then.
#[tactic(auto, unfolding(ink_code::specs::Moves::move_step, ink_code::specs::Machine::given, ink_code::specs::Machine::after))]
pub fn move_step(proc: &mut Proc, next: u32, to: u32, from: u32) -> Result<Stepped, StepFault>
    requires { MayStep proc.old }
    ensures { IsStep (move_step next to from) result proc.old proc.new }
{
    if !proc.frames.has(to) {
        return Err(StepFault::Wrong(Wrong::Absent));
    }
    match proc.frames.take(from) {
        Err(why) => Err(StepFault::Wrong(why)),
        Ok(value) => {
            proc.frames.set(to, value);
            go_on(proc, next);
            Ok(Stepped::Went)
        }
    }
}

/// A register gets a value, of which a copy was made.
#[tactic(auto, unfolding(ink_code::specs::Machine::after))]
pub(crate) fn put_copy(
    proc: &mut Proc,
    next: u32,
    to: u32,
    value: Value,
) -> Result<Stepped, StepFault>
    requires { MayStep proc.old }
    ensures { IsStep (copies next to value) result proc.old proc.new }
{
    match count_copy(&mut proc.heap, &value) {
        Err(fault) => Err(fault),
        Ok(()) => {
            proc.frames.set(to, value);
            go_on(proc, next);
            Ok(Stepped::Went)
        }
    }
}

/// A register gets a copy of a value or of a borrow.
#[tactic(auto, unfolding(ink_code::specs::Moves::copy_step, ink_code::specs::Machine::given, ink_code::specs::Machine::after))]
pub fn copy_step(
    alloc: Global,
    proc: &mut Proc,
    next: u32,
    to: u32,
    from: u32,
) -> Result<Stepped, StepFault>
    requires { MayStep proc.old }
    ensures { IsStep (copy_step next to from) result proc.old proc.new }
{
    if !proc.frames.has(to) {
        return Err(StepFault::Wrong(Wrong::Absent));
    }
    let value = register_copy(alloc, &proc.frames, from)?;
    put_copy(proc, next, to, value)
}

/// A register gets a borrow of what another holds: of an owner's object, of a borrow's, or the value itself.
#[tactic(auto, unfolding(ink_code::specs::Moves::borrow_step, ink_code::specs::Machine::given, ink_code::specs::Machine::after))]
pub fn borrow_step(
    alloc: Global,
    proc: &mut Proc,
    next: u32,
    to: u32,
    from: u32,
) -> Result<Stepped, StepFault>
    requires { MayStep proc.old }
    ensures { IsStep (borrow_step next to from) result proc.old proc.new }
{
    if !proc.frames.has(to) {
        return Err(StepFault::Wrong(Wrong::Absent));
    }
    let value = register_copy(alloc, &proc.frames, from)?;
    put_copy(proc, next, to, borrow_of(value))
}

/// Two registers change contents.
#[tactic(auto, unfolding(ink_code::specs::Moves::exchange_step, ink_code::specs::Machine::given))]
pub fn exchange_step(proc: &mut Proc, next: u32, one: u32, other: u32) -> Result<Stepped, StepFault>
    requires { MayStep proc.old }
    ensures { IsStep (exchange_step next one other) result proc.old proc.new }
{
    if !proc.frames.swap(one, other) {
        return Err(StepFault::Wrong(Wrong::Absent));
    }
    go_on(proc, next);
    Ok(Stepped::Went)
}

/// A register gets the reference to this process.
#[tactic(auto, unfolding(ink_code::specs::Moves::my_proc_step, ink_code::specs::Machine::given))]
pub fn my_proc_step(proc: &mut Proc, next: u32, to: u32) -> Result<Stepped, StepFault>
    requires { MayStep proc.old }
    ensures { IsStep (my_proc_step next to) result proc.old proc.new }
{
    if !proc.frames.has(to) {
        return Err(StepFault::Wrong(Wrong::Absent));
    }
    let number = proc.number;
    proc.frames.set(to, Value::Proc(number));
    go_on(proc, next);
    Ok(Stepped::Went)
}

/// The frame goes on elsewhere.
#[tactic(auto, unfolding(ink_code::specs::Moves::jump_step))]
pub fn jump_step(proc: &mut Proc, place: u32) -> Result<Stepped, StepFault>
    requires { MayStep proc.old }
    ensures { IsStep (jump_step place) result proc.old proc.new }
{
    go_on(proc, place);
    Ok(Stepped::Went)
}

/// The frame goes on elsewhere where a register holds true.
#[tactic(auto, unfolding(ink_code::specs::Moves::jump_if_step, ink_code::specs::Machine::after))]
pub fn jump_if_step(
    alloc: Global,
    proc: &mut Proc,
    next: u32,
    on: u32,
    place: u32,
) -> Result<Stepped, StepFault>
    requires { MayStep proc.old }
    ensures { IsStep (jump_if_step next on place) result proc.old proc.new }
{
    let value = register_copy(alloc, &proc.frames, on)?;
    let truth = truth_of(&value)?;
    go_on(proc, if truth { place } else { next });
    Ok(Stepped::Went)
}

/// The process ends the run with a text.
#[tactic(auto, unfolding(ink_code::specs::Moves::panic_step, ink_code::specs::Machine::after))]
pub fn panic_step(alloc: Global, proc: &Proc, text: u32) -> Result<Stepped, StepFault>
    ensures { IsStep (panic_step text) result proc.now proc.now }
{
    let value = register_copy(alloc, &proc.frames, text)?;
    let told = text_of(value)?;
    Ok(Stepped::Panics(told))
}
