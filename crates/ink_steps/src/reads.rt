//! What the instructions read, and what ends each of them.
ghost use Rattle.std.specs.Prelude.{◌≡◌, ◌+◌, Err, MatchResult, Ok};
ghost use Rattle.ink_code.specs.Moves.{constant_of, text_of, truth_of};
ghost use Rattle.ink_code.specs.Objects.{after_copy, object_of, owned_by};
ghost use Rattle.ink_code.specs.Process.{at_place, held, register};
ghost use Rattle.ink_steps.specs.Answers.{Changes, Finds, MayStep, PanicsWith};
ghost use Rattle.ink_proc.specs.State.{state_of};

use crate::stepped::{StepFault, Stepped};
use ink_base::{ObjectId, Text, Value};
use ink_code::Wrong;
use ink_heap::Heap;
use ink_proc::{Frames, Proc, has_room};
use std::alloc::Global;

/// The step is made, and the innermost frame goes on at a place.
pub(crate) fn go_on(proc: &mut Proc, place: u32)
    requires { MayStep proc.old }
    ensures { state_of proc.new ≡ record (state_of proc.old) { frames = at_place place proc.old.frames; ran = proc.old.ran + 1 } }
{
    proc.frames.go_on(place);
    proc.ran += 1;
}

/// The value in a register, where it is there.
pub(crate) fn register_value(frames: &Frames, number: u32) -> Result<&Value, Wrong>
    ensures { MatchResult result (λ value. held (register frames.now number) ≡ Ok value.now) (λ why. held (register frames.now number) ≡ Err why) }
{
    match frames.register(number) {
        None => Err(Wrong::Absent),
        Some(Value::Empty) => Err(Wrong::Empty),
        Some(value) => Ok(value),
    }
}

/// A copy of the value in a register, where it is there.
pub(crate) fn register_copy(alloc: Global, frames: &Frames, number: u32) -> Result<Value, StepFault>
    ensures { Finds (held (register frames.now number)) result }
{
    match frames.register(number) {
        None => Err(StepFault::Wrong(Wrong::Absent)),
        Some(Value::Empty) => Err(StepFault::Wrong(Wrong::Empty)),
        Some(value) => match value.copy(alloc) {
            Err(_) => Err(StepFault::OutOfMemory),
            Ok(value) => Ok(value),
        },
    }
}

/// A copy of a value that can be a constant.
pub(crate) fn constant_copy(alloc: Global, value: &Value) -> Result<Value, StepFault>
    ensures { Finds (constant_of value.now) result }
{
    match value {
        Value::Int(_) | Value::Bool(_) | Value::Nil | Value::Txt(_) => match value.copy(alloc) {
            Err(_) => Err(StepFault::OutOfMemory),
            Ok(value) => Ok(value),
        },
        _ => Err(StepFault::Wrong(Wrong::Kind)),
    }
}

/// The object that a value owns or borrows.
pub(crate) fn object_of(value: &Value) -> Result<ObjectId, StepFault>
    ensures { Finds (object_of value.now) result }
{
    match value {
        Value::Own(id) | Value::Bor(id) => Ok(*id),
        _ => Err(StepFault::Wrong(Wrong::Kind)),
    }
}

/// The object that a value owns.
pub(crate) fn owned_object(value: &Value) -> Result<ObjectId, StepFault>
    ensures { Finds (owned_by value.now) result }
{
    match value {
        Value::Own(id) => Ok(*id),
        _ => Err(StepFault::Wrong(Wrong::Kind)),
    }
}

/// The truth in a value.
pub(crate) fn truth_of(value: &Value) -> Result<bool, StepFault>
    ensures { Finds (truth_of value.now) result }
{
    match value {
        Value::Bool(truth) => Ok(*truth),
        _ => Err(StepFault::Wrong(Wrong::Kind)),
    }
}

/// The text in a value.
pub(crate) fn text_of(value: Value) -> Result<Text, StepFault>
    ensures { Finds (text_of value) result }
{
    match value {
        Value::Txt(text) => Ok(text),
        _ => Err(StepFault::Wrong(Wrong::Kind)),
    }
}

/// Counts the copy that was made of a value, where it is a borrow.
///
/// A count of 2^62 has no room for one more.
pub(crate) fn count_copy(heap: &mut Heap, value: &Value) -> Result<(), StepFault>
    ensures { Changes (after_copy value.now heap.old.objects) result heap.old.objects heap.new.objects }
{
    if !has_room(heap, value) {
        return Err(StepFault::OutOfMemory);
    }
    Ok(ink_proc::count_copy(heap, value)?)
}

/// A panic with a text.
pub(crate) fn panic_with(alloc: Global, text: &[u8]) -> Result<Stepped, StepFault>
    ensures { PanicsWith text.now result }
{
    match Text::of(alloc, text) {
        Err(_) => Err(StepFault::OutOfMemory),
        Ok(text) => Ok(Stepped::Panics(text)),
    }
}
