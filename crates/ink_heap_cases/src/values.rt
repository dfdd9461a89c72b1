//! Values, as the lines of the cases write them, and as the answers do.

use ink_base::{ObjectId, Text, Value};
use ink_sheet::{Sheet, behind, number_in, quoted_in, signed_in, word_at, words_from};
use std::alloc::{AllocError, Global};

/// The object of process 1 that a number names. Where it is none, an object that no case makes.
fn object_of(number: &str) -> ObjectId {
    ObjectId {
        process: 1,
        serial: number_in(number).unwrap_or(0),
    }
}

/// The object whose owner stands in a line at an index.
pub fn id_at(line: &str, index: usize) -> ObjectId {
    object_of(behind(word_at(line, index), "@").unwrap_or(""))
}

/// The value that a word without a sign in front stands for: an Int, `true`, `false` or `nil`. Another word is no value.
fn plain_value(word: &str) -> Value {
    match word {
        "true" => Value::Bool(true),
        "false" => Value::Bool(false),
        "nil" => Value::Nil,
        _ => match signed_in(word) {
            Some(number) => Value::Int(number),
            None => Value::Empty,
        },
    }
}

/// The value that a word stands for. `@1` is the owner of object 1 and `&1` a borrow of it, and quotes are around a text.
fn value_of(alloc: Global, word: &str) -> Result<Value, AllocError> {
    if let Some(number) = behind(word, "@") {
        return Ok(Value::Own(object_of(number)));
    }
    if let Some(number) = behind(word, "&") {
        return Ok(Value::Bor(object_of(number)));
    }
    if behind(word, "\"").is_some() {
        return Ok(Value::Txt(Text::from_bytes(quoted_in(alloc, word)?)));
    }
    Ok(plain_value(word))
}

/// The value of the word at an index.
pub fn value_at(alloc: Global, line: &str, index: usize) -> Result<Value, AllocError> {
    value_of(alloc, word_at(line, index))
}

/// The values of the words of a line from an index on.
pub fn values_from(alloc: Global, line: &str, index: usize) -> Result<Vec<Value>, AllocError> {
    let mut values = Vec::new(alloc);
    for word in words_from(alloc, line, index)? {
        values.push(value_of(alloc, word)?)?;
    }
    Ok(values)
}

/// Writes a value as the lines of the cases do. A text that isn't UTF-8 is told to be none.
pub fn told_value(sheet: &mut Sheet, value: &Value) {
    match value {
        Value::Int(number) => sheet.signed(*number),
        Value::Bool(truth) => sheet.truth(*truth),
        Value::Nil => sheet.text("nil"),
        Value::Txt(text) => {
            sheet.text("\"");
            sheet.bytes(text.bytes(), "not UTF-8");
            sheet.text("\"");
        }
        Value::Own(id) => sheet.numbered("@", id.serial),
        Value::Bor(id) => sheet.numbered("&", id.serial),
        Value::Proc(process) => sheet.numbered("process ", u64::from(*process)),
        Value::Future(future) => sheet.numbered("future ", u64::from(*future)),
        Value::Promise(future) => sheet.numbered("promise ", u64::from(*future)),
        Value::Empty => sheet.text("empty"),
    }
}

/// Writes a value, where there is one.
pub fn told_found(sheet: &mut Sheet, given: Option<&Value>) {
    match given {
        None => sheet.text("none"),
        Some(given) => told_value(sheet, given),
    }
}

/// Writes words and the value behind them.
pub fn told_with(sheet: &mut Sheet, words: &str, value: &Value) {
    sheet.text(words);
    told_value(sheet, value);
}

/// Writes words and the values behind them.
pub fn told_values(sheet: &mut Sheet, words: &str, values: &[Value]) {
    sheet.text(words);
    for value in values {
        told_with(sheet, " ", value);
    }
}
