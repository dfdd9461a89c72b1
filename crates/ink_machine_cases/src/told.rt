//! Values, and what steps come to, as words.

use ink_base::{ObjectId, Text, Value};
use ink_code::Wrong;
use ink_interp::{Request, StepFault, Stepped};
use ink_parcel::Parcel;
use ink_sheet::Sheet;
use std::str;

/// A text. Nothing where it isn't UTF-8.
pub fn text_of(text: &Text) -> &str {
    match str::from_utf8(text.bytes()) {
        Ok(text) => text,
        Err(_) => "",
    }
}

/// A number behind words.
pub fn numbered(sheet: &mut Sheet, words: &str, number: u64) {
    sheet.text(words);
    sheet.plain(&number);
}

/// The words for an owner or a borrow of an object.
fn name(sheet: &mut Sheet, kind: &str, id: &ObjectId) {
    numbered(sheet, kind, u64::from(id.process));
    numbered(sheet, ".", id.serial);
}

/// A value, as a case writes it.
pub fn value(sheet: &mut Sheet, value: &Value) {
    match value {
        Value::Int(number) => sheet.plain(number),
        Value::Bool(truth) => sheet.plain(truth),
        Value::Nil => sheet.text("nil"),
        Value::Txt(text) => {
            sheet.text("'");
            sheet.text(text_of(text));
            sheet.text("'");
        }
        Value::Own(id) => name(sheet, "own:", id),
        Value::Bor(id) => name(sheet, "borrow:", id),
        Value::Proc(number) => numbered(sheet, "process:", u64::from(*number)),
        Value::Future(number) => numbered(sheet, "future:", u64::from(*number)),
        Value::Promise(number) => numbered(sheet, "promise:", u64::from(*number)),
        Value::Empty => sheet.text("empty"),
    }
}

/// Values, each behind a blank.
pub fn values(sheet: &mut Sheet, values: &[Value]) {
    for given in values {
        sheet.text(" ");
        value(sheet, given);
    }
}

/// What goes out: the values, and how many objects they take along.
fn parcel(sheet: &mut Sheet, words: &str, parcel: &Parcel) {
    sheet.text(words);
    values(sheet, parcel.values());
    sheet.text("; objects ");
    sheet.plain(&parcel.object_count());
}

/// The word for the way in which an instruction or an answer is wrong.
pub fn wrong_word(why: Wrong) -> &'static str {
    match why {
        Wrong::Empty => "wrong: empty",
        Wrong::Kind => "wrong: kind",
        Wrong::Object => "wrong: object",
        Wrong::Absent => "wrong: absent",
    }
}

/// The action that is wanted, where it isn't one of a future.
fn request(sheet: &mut Sheet, wanted: &Request) {
    match wanted {
        Request::Take => sheet.text("wants a message"),
        Request::Print(text) => {
            sheet.text("wants print ");
            sheet.text(text_of(text));
        }
        Request::Spawn { kind, fields } => {
            numbered(sheet, "wants spawn of type ", u64::from(*kind));
            parcel(sheet, " with", fields);
        }
        Request::Send { to, method, values } => {
            numbered(sheet, "wants send to process ", u64::from(*to));
            numbered(sheet, " of method ", u64::from(*method));
            parcel(sheet, " with", values);
        }
        _ => future_request(sheet, wanted),
    }
}

/// The action on a future that is wanted.
fn future_request(sheet: &mut Sheet, wanted: &Request) {
    match wanted {
        Request::SetFuture { future, value } => {
            numbered(sheet, "wants future ", u64::from(*future));
            parcel(sheet, " set to", value);
        }
        Request::BreakFuture { future } => {
            numbered(sheet, "wants future ", u64::from(*future));
            sheet.text(" broken");
        }
        Request::GetFuture { future } => {
            numbered(sheet, "wants the value of future ", u64::from(*future));
        }
        _ => sheet.text("wants a future"),
    }
}

/// What a step or a slice came to.
pub fn came(sheet: &mut Sheet, came: &Result<Stepped, StepFault>) {
    match came {
        Ok(Stepped::Went) => sheet.text("went"),
        Ok(Stepped::Wants(wanted)) => request(sheet, wanted),
        Ok(Stepped::Panics(text)) => {
            sheet.text("panics ");
            sheet.text(text_of(text));
        }
        Ok(Stepped::Spent(steps)) => numbered(sheet, "spent ", *steps),
        Err(StepFault::Wrong(why)) => sheet.text(wrong_word(*why)),
        Err(StepFault::OutOfMemory) => sheet.text("no memory"),
    }
}
