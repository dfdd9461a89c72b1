//! Values that are moved out of registers and into them.
ghost use Rattle.std.specs.Prelude.{◌≡◌, ◌+◌, ◌≤◌, [], ◌∷◌, ◌++◌, length, slice_get, slice_set, IfOk, List, MatchResult, OnErr, OnOk, Result};
ghost use Rattle.std.specs.Vec.{vec_capacity, vec_len};
ghost use Rattle.ink_base.specs.declared.value.Value.{Value as OneValue};
ghost use Rattle.ink_base.specs.declared.value.Value.TheVariants.{Empty};
ghost use Rattle.ink_code.specs.Process.{given_out, held, moved, padded};
ghost use Rattle.ink_proc.specs.Answers.{IsPutAnswer};

use ink_base::{Items, Value};
use ink_code::Wrong;

/// Takes the value out of a register, where it is there.
pub(crate) fn take_held(registers: &mut Items<Value>, number: u32) -> Result<Value, Wrong>
    ensures value { result ≡ held (slice_get registers.old number) }
    ensures ok { OnOk result (registers.new ≡ slice_set registers.old number Empty) }
    ensures err { OnErr result (registers.new ≡ registers.old) }
{
    match registers.get(u64::from(number)) {
        None => Err(Wrong::Absent),
        Some(Value::Empty) => Err(Wrong::Empty),
        Some(_) => Ok(registers.set(u64::from(number), Value::Empty)),
    }
}

/// Moves the values of registers out, one after another, into a vector with room for them.
pub(crate) fn move_out(
    registers: &mut Items<Value>,
    mut room: Vec<Value>,
    numbers: &[u32],
) -> Result<Vec<Value>, Wrong>
    requires empty { room.items ≡ [] }
    requires room { length numbers.now ≤ vec_capacity room }
    ensures moved { MatchResult result
        (λ values. moved numbers.now registers.old ≡ Result.Ok (values.items, registers.new))
        (λ why. moved numbers.now registers.old ≡ Result.Err why) }
    ensures count { IfOk result (λ values. vec_len values ≡ length numbers.now) }
    ensures room { IfOk result (λ values. vec_capacity room ≤ vec_capacity values) }
{
    for number in numbers {
        match take_held(registers, *number) {
            Err(why) => return Err(why),
            Ok(value) => room.push_reserved(value),
        }
    }
    Ok(room)
}

/// Puts values back into the registers that they were moved out of, the last one first.
pub(crate) fn move_back(registers: &mut Items<Value>, numbers: &[u32], mut values: Items<Value>)
    requires { length values ≡ length numbers.now }
    ensures { (before : List OneValue) → moved numbers.now before ≡ Result.Ok (values, registers.old) → registers.new ≡ before }
{
    while let Some(value) = values.pop() {
        set_if_there(registers, numbers[values.len() as usize], value);
    }
}

/// Sets a register, where it is there.
fn set_if_there(registers: &mut Items<Value>, number: u32, value: Value)
    ensures { registers.new ≡ slice_set registers.old number value }
{
    if u64::from(number) < registers.len() {
        registers.set(u64::from(number), value);
    }
}

/// Puts empty values behind the others, up to so many in all, where there is room for them.
pub(crate) fn pad(mut values: Vec<Value>, most: u32) -> Vec<Value>
    requires { most ≤ vec_capacity values }
    ensures { result.items ≡ padded most values.items }
{
    while values.len() < most as usize {
        values.push_reserved(Value::Empty);
    }
    values
}

/// Moves values behind the others, where there is room for them.
pub(crate) fn move_behind(front: &mut Vec<Value>, mut values: Items<Value>)
    requires { vec_len front.old + length values ≤ vec_capacity front.old }
    ensures items { front.new.items ≡ front.old.items ++ values }
    ensures capacity { vec_capacity front.new ≡ vec_capacity front.old }
{
    for index in 0..values.len() {
        let value = values.set(index, Value::Empty);
        front.push_reserved(value);
    }
}

/// Puts a value in a register, where there is one.
fn put_there(registers: &mut Items<Value>, number: u32, value: Value) -> Result<(), Wrong>
    ensures { IsPutAnswer result registers.new (given_out (number ∷ []) (value ∷ []) registers.old) }
{
    if u64::from(number) >= registers.len() {
        return Err(Wrong::Absent);
    }
    registers.set(u64::from(number), value);
    Ok(())
}

/// Moves values into registers, one after another, each of which has to be there.
pub(crate) fn move_in(
    registers: &mut Items<Value>,
    numbers: &[u32],
    mut values: Items<Value>,
) -> Result<(), Wrong>
    ensures { IsPutAnswer result registers.new (given_out numbers.now values registers.old) }
{
    if numbers.len() as u64 != values.len() {
        return Err(Wrong::Absent);
    }
    for (index, number) in numbers.iter().enumerate() {
        let value = values.set(index as u64, Value::Empty);
        put_there(registers, *number, value)?;
    }
    Ok(())
}
