//! The words of a line: numbers, and values as the cases write them.

use ink_base::{Items, ObjectId, Value};
use std::alloc::{AllocError, Global};

/// The first word of a line, and what stands behind it.
pub fn first_word(line: &str) -> (&str, &str) {
    line.trim().split_once(" ").unwrap_or((line.trim(), ""))
}

/// Two numbers at the front of a line, and what stands behind them.
pub fn two_numbers(line: &str) -> Option<(u32, u32, &str)> {
    let (one, rest) = first_word(line);
    let (other, rest) = first_word(rest);
    Some((one.parse().ok()?, other.parse().ok()?, rest))
}

/// The numbers of a line. `None` where one of its words is no number.
pub fn numbers(alloc: Global, line: &str) -> Result<Option<Vec<u32>>, AllocError> {
    let mut numbers = Vec::new(alloc);
    for word in line.split_whitespace() {
        match word.parse() {
            Ok(number) => numbers.push(number)?,
            Err(_) => return Ok(None),
        }
    }
    Ok(Some(numbers))
}

/// An object's name, as `1.2`: that of its process and the serial.
fn object_name(word: &str) -> Option<ObjectId> {
    let (process, serial) = word.split_once(".")?;
    Some(ObjectId {
        process: process.parse().ok()?,
        serial: serial.parse().ok()?,
    })
}

/// A value that names something: `own:1.2`, `borrow:1.2`, `process:1`, `future:1`, `promise:1`.
fn naming_value(word: &str) -> Option<Value> {
    let (kind, named) = word.split_once(":")?;
    match kind {
        "own" => Some(Value::Own(object_name(named)?)),
        "borrow" => Some(Value::Bor(object_name(named)?)),
        "process" => Some(Value::Proc(named.parse().ok()?)),
        "future" => Some(Value::Future(named.parse().ok()?)),
        "promise" => Some(Value::Promise(named.parse().ok()?)),
        _ => None,
    }
}

/// A value of one word. A text isn't one.
pub fn value_of(word: &str) -> Option<Value> {
    match word {
        "true" => Some(Value::Bool(true)),
        "false" => Some(Value::Bool(false)),
        "nil" => Some(Value::Nil),
        "empty" => Some(Value::Empty),
        _ => match word.parse() {
            Ok(number) => Some(Value::Int(number)),
            Err(_) => naming_value(word),
        },
    }
}

/// The values of a line. `None` where one of its words is no value.
pub fn values(alloc: Global, line: &str) -> Result<Option<Items<Value>>, AllocError> {
    let mut values = Vec::new(alloc);
    for word in line.split_whitespace() {
        match value_of(word) {
            Some(value) => values.push(value)?,
            None => return Ok(None),
        }
    }
    Ok(Some(Items::of(values)))
}
