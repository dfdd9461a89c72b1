//! The rows of Bool.
#![tactic(auto, unfolding(ink_code::specs::Machine::after))]

ghost use Rattle.std.specs.Prelude.{◌≡◌};
ghost use Rattle.ink_code.specs.BoolRows.{same_row, other_row, false_row, bool_to_string_row, bool_rows};
ghost use Rattle.ink_rows.specs.Answers.{Answers, TakesNoMemory};

use crate::computed::{Computed, RowFault};
use crate::operands::{pair, single, truth_of};
use ink_base::{Text, Value};
use ink_code::{Wrong, row_numbers as rows};
use std::alloc::Global;

/// Whether two Bools are the same.
#[tactic(auto, unfolding(ink_code::specs::Machine::after, ink_code::specs::BoolRows::same_row))]
fn same(values: &[Value]) -> Result<Computed, RowFault>
    ensures answer { Answers result (same_row values.now) }
    ensures memory { TakesNoMemory result }
{
    let (one, other) = pair(values)?;
    let a = truth_of(one)?;
    let b = truth_of(other)?;
    Ok(Computed::Gives(Value::Bool(a == b)))
}

/// Whether two Bools differ.
#[tactic(auto, unfolding(ink_code::specs::Machine::after, ink_code::specs::BoolRows::other_row))]
fn differs(values: &[Value]) -> Result<Computed, RowFault>
    ensures answer { Answers result (other_row values.now) }
    ensures memory { TakesNoMemory result }
{
    let (one, other) = pair(values)?;
    let a = truth_of(one)?;
    let b = truth_of(other)?;
    Ok(Computed::Gives(Value::Bool(a != b)))
}

/// The opposite of a Bool.
#[tactic(auto, unfolding(ink_code::specs::Machine::after, ink_code::specs::BoolRows::false_row))]
fn opposite(values: &[Value]) -> Result<Computed, RowFault>
    ensures answer { Answers result (false_row values.now) }
    ensures memory { TakesNoMemory result }
{
    let truth = truth_of(single(values)?)?;
    Ok(Computed::Gives(Value::Bool(!truth)))
}

/// The text of a Bool: `true` or `false`.
#[tactic(auto, unfolding(ink_code::specs::Machine::after, ink_code::specs::BoolRows::bool_to_string_row))]
fn to_string(alloc: Global, values: &[Value]) -> Result<Computed, RowFault>
    ensures { Answers result (bool_to_string_row values.now) }
{
    if truth_of(single(values)?)? {
        Ok(Computed::Gives(Value::Txt(Text::of(alloc, b"true")?)))
    } else {
        Ok(Computed::Gives(Value::Txt(Text::of(alloc, b"false")?)))
    }
}

/// What a row of Bool comes to, by its number in the table.
#[tactic(auto, unfolding(ink_code::specs::BoolRows::bool_rows))]
pub fn bool_row(alloc: Global, row: u32, values: &[Value]) -> Result<Computed, RowFault>
    ensures { Answers result (bool_rows row values.now) }
{
    match row {
        rows::BOOL_EQUAL => same(values),
        rows::BOOL_UNEQUAL => differs(values),
        rows::BOOL_IS_FALSE => opposite(values),
        rows::BOOL_TO_STRING => to_string(alloc, values),
        _ => Err(RowFault::Wrong(Wrong::Absent)),
    }
}
