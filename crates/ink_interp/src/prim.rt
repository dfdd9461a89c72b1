//! The step that does a row of the built-in methods.
ghost use Rattle.std.specs.Prelude.{◌≡◌, ◌≤◌, [], length, IfOk, Ok};
ghost use Rattle.std.specs.Vec.{vec_capacity, vec_len};
ghost use Rattle.ink_code.specs.Machine.{Went, put, settles};
ghost use Rattle.ink_code.specs.Prims.{prim_step, row_step};
ghost use Rattle.ink_object_rows.specs.Answers.{RowAnswers};
ghost use Rattle.ink_interp.specs.Rows.{Tells};
ghost use Rattle.ink_proc.specs.State.{state_of};
ghost use Rattle.ink_steps.specs.Answers.{IsStep, MayStep};

use ink_base::{Items, Limits, Value};
use ink_code::row_numbers::{FIRST_OF_ARRAY, FIRST_OF_OPTION};
use ink_code::{Code, Wrong};
use ink_object_rows::{array_row, option_row};
use ink_proc::Proc;
use ink_rows::{Computed, RowFault, value_row};
use ink_steps::{StepFault, Stepped};
use std::alloc::{AllocError, Global};
use std::mem;

/// What the row of that number comes to, from the values that were moved to it.
#[tactic(auto, unfolding(ink_code::specs::Prims::row_step, ink_code::specs::Machine::after))]
fn row_of(
    alloc: Global,
    proc: &mut Proc,
    code: &Code,
    limits: &Limits,
    row: u32,
    values: &mut [Value],
) -> Result<Computed, RowFault>
    ensures answer { RowAnswers (row_step code.now limits.now row values.old (state_of proc.old)) result (state_of proc.old) (state_of proc.new) values.old values.new }
    ensures ran { proc.new.ran ≡ proc.old.ran }
{
    if row < FIRST_OF_ARRAY {
        value_row(alloc, limits, row, values)
    } else if row < FIRST_OF_OPTION {
        array_row(alloc, proc, limits, row, values)
    } else {
        option_row(alloc, proc, code, limits, row, values)
    }
}

/// A row has given a value, which goes to a register. Where no drop waits, the frame goes on.
#[tactic(auto, unfolding(ink_code::specs::Machine::settles))]
fn put_given(proc: &mut Proc, next: u32, to: u32, value: Value)
    requires { MayStep proc.old }
    ensures { settles next proc.old.pending (put to value (state_of proc.old)) ≡ Ok (Went, state_of proc.new) }
{
    proc.frames.set(to, value);
    if proc.pending.first().is_none() {
        proc.frames.go_on(next);
    }
    proc.ran += 1;
}

/// What a row came to is done. A value goes to a register; after a panic, and without memory, the operands go back to
/// theirs.
#[tactic(auto, unfolding(ink_code::specs::Machine::after))]
fn tell(
    proc: &mut Proc,
    next: u32,
    to: u32,
    operands: &[u32],
    values: Vec<Value>,
    came: Result<Computed, RowFault>,
) -> Result<Stepped, StepFault>
    requires ran { MayStep proc.old }
    requires count { vec_len values ≡ length operands.now }
    ensures { Tells came result next to (state_of proc.old) (state_of proc.new) operands.now values.items }
{
    match came {
        Ok(Computed::Gives(value)) => {
            proc.room = values;
            put_given(proc, next, to, value);
            Ok(Stepped::Went)
        }
        Ok(Computed::Raises(text)) => {
            proc.frames.put_back(operands, Items::of(values));
            Ok(Stepped::Panics(text))
        }
        Err(RowFault::Wrong(why)) => Err(StepFault::Wrong(why)),
        Err(RowFault::OutOfMemory) => {
            proc.frames.put_back(operands, Items::of(values));
            Err(StepFault::OutOfMemory)
        }
    }
}

/// An empty vector with room for so many values, which a process keeps between its steps.
fn room_of(alloc: Global, proc: &mut Proc, count: usize) -> Result<Vec<Value>, AllocError>
    ensures empty { IfOk result (λ room. room.items ≡ []) }
    ensures room { IfOk result (λ room. count ≤ vec_capacity room) }
    ensures process { state_of proc.new ≡ state_of proc.old }
{
    let mut room = mem::replace(&mut proc.room, Vec::new(alloc));
    room.clear();
    room.reserve(count)?;
    Ok(room)
}

/// A row is done, to which the values of registers are moved.
///
/// It takes memory for what it gives alone, once a row with as many operands was done before.
#[tactic(auto, unfolding(ink_code::specs::Prims::prim_step, ink_code::specs::Machine::given, ink_code::specs::Machine::after))]
pub(crate) fn prim_step(
    alloc: Global,
    proc: &mut Proc,
    code: &Code,
    limits: &Limits,
    next: u32,
    row: u32,
    to: u32,
    operands: &[u32],
) -> Result<Stepped, StepFault>
    requires { MayStep proc.old }
    ensures { IsStep (prim_step code.now limits.now next row to operands.now) result proc.old proc.new }
{
    if !proc.frames.has(to) {
        return Err(StepFault::Wrong(Wrong::Absent));
    }
    let room = room_of(alloc, proc, operands.len())?;
    let mut values = proc.frames.take_values(room, operands)?;
    let came = row_of(alloc, proc, code, limits, row, values.as_mut_slice());
    tell(proc, next, to, operands, values, came)
}
