//! The rows of String.
#![tactic(auto, unfolding(ink_code::specs::Machine::after))]

ghost use Rattle.std.specs.Prelude.{◌≡◌};
ghost use Rattle.ink_code.specs.TextRows.{join_row, same_text_row, other_text_row, text_size_row, text_empty_row, byte_row, starts_with_row, text_to_string_row, text_rows};
ghost use Rattle.ink_rows.specs.Answers.{Answers, TakesNoMemory};

use crate::computed::{Computed, RowFault};
use crate::operands::{index_in, int_of, pair, single, text_of, texts};
use crate::texts::{index_text, limit_text_of};
use ink_base::{Limit, Limits, Text, TextFault, Value};
use ink_code::{Wrong, row_numbers as rows};
use std::alloc::Global;

/// Both texts in order, where that is no longer than the limit.
#[tactic(auto, unfolding(ink_code::specs::Machine::after, ink_code::specs::TextRows::join_row))]
fn join(alloc: Global, limits: &Limits, values: &[Value]) -> Result<Computed, RowFault>
    ensures { Answers result (join_row limits.now values.now) }
{
    let (a, b) = texts(values)?;
    match a.join(alloc, b, limits.get(Limit::Text)) {
        Ok(text) => Ok(Computed::Gives(Value::Txt(text))),
        Err(TextFault::TooLong(_)) => { Ok(Computed::Raises(limit_text_of(alloc, Limit::Text)?)) }
        Err(TextFault::OutOfMemory) => Err(RowFault::OutOfMemory),
    }
}

/// Whether two texts have the same bytes.
#[tactic(auto, unfolding(ink_code::specs::Machine::after, ink_code::specs::TextRows::same_text_row))]
fn same(values: &[Value]) -> Result<Computed, RowFault>
    ensures answer { Answers result (same_text_row values.now) }
    ensures memory { TakesNoMemory result }
{
    let (a, b) = texts(values)?;
    Ok(Computed::Gives(Value::Bool(a.bytes() == b.bytes())))
}

/// Whether two texts have other bytes.
#[tactic(auto, unfolding(ink_code::specs::Machine::after, ink_code::specs::TextRows::other_text_row))]
fn differs(values: &[Value]) -> Result<Computed, RowFault>
    ensures answer { Answers result (other_text_row values.now) }
    ensures memory { TakesNoMemory result }
{
    let (a, b) = texts(values)?;
    Ok(Computed::Gives(Value::Bool(a.bytes() != b.bytes())))
}

/// How many bytes a text has.
#[tactic(auto, unfolding(ink_code::specs::Machine::after, ink_code::specs::TextRows::text_size_row))]
fn size(values: &[Value]) -> Result<Computed, RowFault>
    ensures answer { Answers result (text_size_row values.now) }
    ensures memory { TakesNoMemory result }
{
    let text = text_of(single(values)?)?;
    Ok(Computed::Gives(Value::Int(text.bytes().len() as i64)))
}

/// Whether a text has no bytes.
#[tactic(auto, unfolding(ink_code::specs::Machine::after, ink_code::specs::TextRows::text_empty_row))]
fn is_empty(values: &[Value]) -> Result<Computed, RowFault>
    ensures answer { Answers result (text_empty_row values.now) }
    ensures memory { TakesNoMemory result }
{
    let text = text_of(single(values)?)?;
    Ok(Computed::Gives(Value::Bool(text.bytes().is_empty())))
}

/// The byte at an index of a text.
#[tactic(auto, unfolding(ink_code::specs::Machine::after, ink_code::specs::TextRows::byte_row))]
fn byte(alloc: Global, values: &[Value]) -> Result<Computed, RowFault>
    ensures { Answers result (byte_row values.now) }
{
    let (one, other) = pair(values)?;
    let bytes = text_of(one)?.bytes();
    let number = int_of(other)?;
    match index_in(number, bytes.len()) {
        Some(index) => Ok(Computed::Gives(Value::Int(i64::from(bytes[index])))),
        None => Ok(Computed::Raises(index_text(alloc, number, bytes.len())?)),
    }
}

/// Whether a text begins with another.
#[tactic(auto, unfolding(ink_code::specs::Machine::after, ink_code::specs::TextRows::starts_with_row))]
fn starts_with(values: &[Value]) -> Result<Computed, RowFault>
    ensures answer { Answers result (starts_with_row values.now) }
    ensures memory { TakesNoMemory result }
{
    let (text, front) = texts(values)?;
    Ok(Computed::Gives(Value::Bool(text.bytes().starts_with(front.bytes()))))
}

/// The text itself.
#[tactic(auto, unfolding(ink_code::specs::Machine::after, ink_code::specs::TextRows::text_to_string_row))]
fn to_string(alloc: Global, values: &[Value]) -> Result<Computed, RowFault>
    ensures { Answers result (text_to_string_row values.now) }
{
    let text = text_of(single(values)?)?;
    Ok(Computed::Gives(Value::Txt(text.copy(alloc)?)))
}

/// What a row of String comes to, by its number in the table.
#[tactic(auto, unfolding(ink_code::specs::TextRows::text_rows))]
pub fn text_row(
    alloc: Global,
    limits: &Limits,
    row: u32,
    values: &[Value],
) -> Result<Computed, RowFault>
    ensures { Answers result (text_rows limits.now row values.now) }
{
    match row {
        rows::STRING_JOIN => join(alloc, limits, values),
        rows::STRING_EQUAL => same(values),
        rows::STRING_UNEQUAL => differs(values),
        rows::STRING_SIZE => size(values),
        rows::STRING_IS_EMPTY => is_empty(values),
        rows::STRING_BYTE => byte(alloc, values),
        rows::STRING_STARTS_WITH => starts_with(values),
        rows::STRING_TO_STRING => to_string(alloc, values),
        _ => Err(RowFault::Wrong(Wrong::Absent)),
    }
}
