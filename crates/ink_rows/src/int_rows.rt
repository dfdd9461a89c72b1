//! The rows of Int.
#![tactic(auto, unfolding(ink_code::specs::Machine::after))]

ghost use Rattle.std.specs.Prelude.{◌≡◌, ℤ, FitsSigned};
ghost use Rattle.std.specs.Int.{w64};
ghost use Rattle.std.specs.Option.{SomeIff};
ghost use Rattle.ink_code.specs.IntRows.{int_to_string_row, add_row, subtract_row, multiply_row, divide_row, rest_row, equal_row, unequal_row, less_row, at_most_row, greater_row, at_least_row, bit_and_row, bit_or_row, bit_xor_row, int_rows};
ghost use Rattle.ink_code.specs.Rows.{int_or_overflow};
ghost use Rattle.ink_rows.specs.Answers.{Answers, TakesNoMemory};

use crate::computed::{Computed, RowFault};
use crate::divided::{floor_quotient, floor_rest};
use crate::operands::{int_of, ints, single};
use crate::shifts::{shift_down, shift_up};
use ink_base::{Text, Value};
use ink_code::{Wrong, row_numbers as rows};
use itoa::Buffer;
use std::alloc::Global;

/// A number, where it is an Int, or the panic where it is none.
#[tactic(auto, using(crate::proofs::IntLemmas::fits_is_int, crate::proofs::IntLemmas::unfit_is_no_int))]
fn int_or_overflow(alloc: Global, number: Option<i64>) -> Result<Computed, RowFault>
    ensures { (exact : ℤ) → SomeIff number (FitsSigned w64 exact) exact → Answers result (int_or_overflow exact) }
{
    match number {
        Some(number) => Ok(Computed::Gives(Value::Int(number))),
        None => Ok(Computed::Raises(Text::of(alloc, b"integer overflow")?)),
    }
}

/// The sum of two Ints. A panic where it is no Int.
#[tactic(auto, unfolding(ink_code::specs::Machine::after, ink_code::specs::IntRows::add_row))]
fn add(alloc: Global, values: &[Value]) -> Result<Computed, RowFault>
    ensures { Answers result (add_row values.now) }
{
    let (a, b) = ints(values)?;
    int_or_overflow(alloc, a.checked_add(b))
}

/// A number less another. A panic where it is no Int.
#[tactic(auto, unfolding(ink_code::specs::Machine::after, ink_code::specs::IntRows::subtract_row))]
fn subtract(alloc: Global, values: &[Value]) -> Result<Computed, RowFault>
    ensures { Answers result (subtract_row values.now) }
{
    let (a, b) = ints(values)?;
    int_or_overflow(alloc, a.checked_sub(b))
}

/// The product of two Ints. A panic where it is no Int.
#[tactic(auto, unfolding(ink_code::specs::Machine::after, ink_code::specs::IntRows::multiply_row))]
fn multiply(alloc: Global, values: &[Value]) -> Result<Computed, RowFault>
    ensures { Answers result (multiply_row values.now) }
{
    let (a, b) = ints(values)?;
    int_or_overflow(alloc, a.checked_mul(b))
}

/// A number by another, rounded down. A panic where the other is 0, and where the quotient is no Int.
#[tactic(auto, unfolding(ink_code::specs::Machine::after, ink_code::specs::IntRows::divide_row))]
fn divide(alloc: Global, values: &[Value]) -> Result<Computed, RowFault>
    ensures { Answers result (divide_row values.now) }
{
    let (a, b) = ints(values)?;
    if b == 0 {
        return Ok(Computed::Raises(Text::of(alloc, b"division by zero")?));
    }
    int_or_overflow(alloc, floor_quotient(a, b))
}

/// What is left beside that quotient. A panic where the other number is 0.
#[tactic(auto, using(crate::proofs::IntLemmas::fits_is_int), unfolding(ink_code::specs::Machine::after, ink_code::specs::IntRows::rest_row))]
fn rest(alloc: Global, values: &[Value]) -> Result<Computed, RowFault>
    ensures { Answers result (rest_row values.now) }
{
    let (a, b) = ints(values)?;
    if b == 0 {
        return Ok(Computed::Raises(Text::of(alloc, b"division by zero")?));
    }
    Ok(Computed::Gives(Value::Int(floor_rest(a, b))))
}

/// Whether two Ints are the same.
#[tactic(auto, unfolding(ink_code::specs::Machine::after, ink_code::specs::IntRows::equal_row))]
fn equal(values: &[Value]) -> Result<Computed, RowFault>
    ensures answer { Answers result (equal_row values.now) }
    ensures memory { TakesNoMemory result }
{
    let (a, b) = ints(values)?;
    Ok(Computed::Gives(Value::Bool(a == b)))
}

/// Whether two Ints differ.
#[tactic(auto, unfolding(ink_code::specs::Machine::after, ink_code::specs::IntRows::unequal_row))]
fn unequal(values: &[Value]) -> Result<Computed, RowFault>
    ensures answer { Answers result (unequal_row values.now) }
    ensures memory { TakesNoMemory result }
{
    let (a, b) = ints(values)?;
    Ok(Computed::Gives(Value::Bool(a != b)))
}

/// Whether a number is below another.
#[tactic(auto, unfolding(ink_code::specs::Machine::after, ink_code::specs::IntRows::less_row))]
fn less(values: &[Value]) -> Result<Computed, RowFault>
    ensures answer { Answers result (less_row values.now) }
    ensures memory { TakesNoMemory result }
{
    let (a, b) = ints(values)?;
    Ok(Computed::Gives(Value::Bool(a < b)))
}

/// Whether a number is below another or the same.
#[tactic(auto, unfolding(ink_code::specs::Machine::after, ink_code::specs::IntRows::at_most_row))]
fn at_most(values: &[Value]) -> Result<Computed, RowFault>
    ensures answer { Answers result (at_most_row values.now) }
    ensures memory { TakesNoMemory result }
{
    let (a, b) = ints(values)?;
    Ok(Computed::Gives(Value::Bool(a <= b)))
}

/// Whether a number is above another.
#[tactic(auto, unfolding(ink_code::specs::Machine::after, ink_code::specs::IntRows::greater_row))]
fn greater(values: &[Value]) -> Result<Computed, RowFault>
    ensures answer { Answers result (greater_row values.now) }
    ensures memory { TakesNoMemory result }
{
    let (a, b) = ints(values)?;
    Ok(Computed::Gives(Value::Bool(a > b)))
}

/// Whether a number is above another or the same.
#[tactic(auto, unfolding(ink_code::specs::Machine::after, ink_code::specs::IntRows::at_least_row))]
fn at_least(values: &[Value]) -> Result<Computed, RowFault>
    ensures answer { Answers result (at_least_row values.now) }
    ensures memory { TakesNoMemory result }
{
    let (a, b) = ints(values)?;
    Ok(Computed::Gives(Value::Bool(a >= b)))
}

/// The bits that are set in both.
#[tactic(auto, unfolding(ink_code::specs::Machine::after, ink_code::specs::IntRows::bit_and_row))]
fn bit_and(values: &[Value]) -> Result<Computed, RowFault>
    ensures answer { Answers result (bit_and_row values.now) }
    ensures memory { TakesNoMemory result }
{
    let (a, b) = ints(values)?;
    Ok(Computed::Gives(Value::Int(a & b)))
}

/// The bits that are set in one or both.
#[tactic(auto, unfolding(ink_code::specs::Machine::after, ink_code::specs::IntRows::bit_or_row))]
fn bit_or(values: &[Value]) -> Result<Computed, RowFault>
    ensures answer { Answers result (bit_or_row values.now) }
    ensures memory { TakesNoMemory result }
{
    let (a, b) = ints(values)?;
    Ok(Computed::Gives(Value::Int(a | b)))
}

/// The bits that are set in one alone.
#[tactic(auto, unfolding(ink_code::specs::Machine::after, ink_code::specs::IntRows::bit_xor_row))]
fn bit_xor(values: &[Value]) -> Result<Computed, RowFault>
    ensures answer { Answers result (bit_xor_row values.now) }
    ensures memory { TakesNoMemory result }
{
    let (a, b) = ints(values)?;
    Ok(Computed::Gives(Value::Int(a ^ b)))
}

/// The text of an Int: its decimal digits, with a sign where it is negative.
#[tactic(auto, unfolding(ink_code::specs::Machine::after, ink_code::specs::IntRows::int_to_string_row))]
fn to_string(alloc: Global, values: &[Value]) -> Result<Computed, RowFault>
    ensures { Answers result (int_to_string_row values.now) }
{
    let number = int_of(single(values)?)?;
    let mut buffer = Buffer::new();
    let text = Text::of(alloc, buffer.format(number).as_bytes())?;
    Ok(Computed::Gives(Value::Txt(text)))
}

/// What a row of Int comes to, by its number in the table.
#[tactic(auto, unfolding(ink_code::specs::IntRows::int_rows))]
pub fn int_row(alloc: Global, row: u32, values: &[Value]) -> Result<Computed, RowFault>
    ensures { Answers result (int_rows row values.now) }
{
    match row {
        rows::INT_ADD => add(alloc, values),
        rows::INT_SUBTRACT => subtract(alloc, values),
        rows::INT_MULTIPLY => multiply(alloc, values),
        rows::INT_DIVIDE => divide(alloc, values),
        rows::INT_REST => rest(alloc, values),
        rows::INT_EQUAL => equal(values),
        rows::INT_UNEQUAL => unequal(values),
        rows::INT_LESS => less(values),
        rows::INT_AT_MOST => at_most(values),
        rows::INT_GREATER => greater(values),
        rows::INT_AT_LEAST => at_least(values),
        rows::INT_BIT_AND => bit_and(values),
        rows::INT_BIT_OR => bit_or(values),
        rows::INT_BIT_XOR => bit_xor(values),
        rows::INT_SHIFT_UP => shift_up(alloc, values),
        rows::INT_SHIFT_DOWN => shift_down(alloc, values),
        rows::INT_TO_STRING => to_string(alloc, values),
        _ => Err(RowFault::Wrong(Wrong::Absent)),
    }
}
