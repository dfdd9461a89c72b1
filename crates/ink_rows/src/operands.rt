//! The operands of a row.
#![tactic(auto, unfolding(ink_code::specs::Machine::after))]

ghost use Rattle.std.specs.Prelude.{◌≡◌, ℕ, ℤ, List, Ok, Err, MatchResult};
ghost use Rattle.ink_code.specs.IntRows.{of_ints};
ghost use Rattle.ink_code.specs.TextRows.{of_texts};
ghost use Rattle.ink_code.specs.Rows.{Computation, single, pair, int_of, place_in};
ghost use Rattle.ink_rows.specs.Operands.{AreInts, AreTexts};
ghost use Rattle.ink_code.specs.Moves.{truth_of, text_of};

use ink_base::{Text, Value};
use ink_code::Wrong;

/// The one operand.
pub fn single(values: &[Value]) -> Result<&Value, Wrong>
    ensures { MatchResult result (λ value. single values.now ≡ Ok value.now) (λ why. single values.now ≡ Err why) }
{
    match values.split_first() {
        None => Err(Wrong::Absent),
        Some((value, others)) => match others.split_first() {
            None => Ok(value),
            Some(_) => Err(Wrong::Absent),
        },
    }
}

/// The two operands.
pub fn pair(values: &[Value]) -> Result<(&Value, &Value), Wrong>
    ensures { MatchResult result (λ both. pair values.now ≡ Ok (both.0.now, both.1.now)) (λ why. pair values.now ≡ Err why) }
{
    let Some((one, others)) = values.split_first() else {
        return Err(Wrong::Absent);
    };
    let Some((other, more)) = others.split_first() else {
        return Err(Wrong::Absent);
    };
    match more.split_first() {
        None => Ok((one, other)),
        Some(_) => Err(Wrong::Absent),
    }
}

/// The number of an Int.
pub fn int_of(value: &Value) -> Result<i64, Wrong>
    ensures { result ≡ int_of value.now }
{
    match value {
        Value::Int(number) => Ok(*number),
        _ => Err(Wrong::Kind),
    }
}

/// The numbers of two Ints.
#[tactic(auto, unfolding(ink_code::specs::Machine::after))]
pub(crate) fn ints(values: &[Value]) -> Result<(i64, i64), Wrong>
    ensures { MatchResult result
        (λ both. AreInts values.now both.0 both.1)
        (λ why. (row : ℤ → ℤ → Computation) → of_ints values.now row ≡ Err why) }
{
    let (one, other) = pair(values)?;
    let a = int_of(one)?;
    let b = int_of(other)?;
    Ok((a, b))
}

/// Whether a Bool is true.
pub fn truth_of(value: &Value) -> Result<bool, Wrong>
    ensures { result ≡ truth_of value.now }
{
    match value {
        Value::Bool(truth) => Ok(*truth),
        _ => Err(Wrong::Kind),
    }
}

/// The text of a String.
pub fn text_of(value: &Value) -> Result<&Text, Wrong>
    ensures { MatchResult result (λ text. text_of value.now ≡ Ok text.now) (λ why. text_of value.now ≡ Err why) }
{
    match value {
        Value::Txt(text) => Ok(text),
        _ => Err(Wrong::Kind),
    }
}

/// Two texts.
#[tactic(auto, unfolding(ink_code::specs::Machine::after))]
pub(crate) fn texts(values: &[Value]) -> Result<(&Text, &Text), Wrong>
    ensures { MatchResult result
        (λ both. AreTexts values.now both.0.now both.1.now)
        (λ why. (row : List ℕ → List ℕ → Computation) → of_texts values.now row ≡ Err why) }
{
    let (one, other) = pair(values)?;
    let a = text_of(one)?;
    let b = text_of(other)?;
    Ok((a, b))
}

/// The index that a number is among so many items, where it is one.
pub fn index_in(number: i64, size: usize) -> Option<usize>
    ensures { result ≡ place_in number size }
{
    if number < 0 {
        return None;
    }
    let index = number as usize;
    if index < size { Some(index) } else { None }
}
