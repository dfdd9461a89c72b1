//! The rows of Int, Bool and String: a line names the type and the method, and its values are the receiver and the
//! operands.

use crate::stage::told_wrong;
use crate::values::{told_value, values_from};
use ink_base::{Kind, Limits};
use ink_code::row_numbers::FIRST_OF_ARRAY;
use ink_prims::number_of;
use ink_rows::{Computed, RowFault, value_row};
use ink_sheet::{Sheet, word_at};
use std::alloc::{AllocError, Global};

/// The number of the row that a line names.
fn row_of(line: &str) -> Option<u32> {
    let kind = match word_at(line, 0) {
        "Int" => Kind::Int,
        "Bool" => Kind::Bool,
        _ => Kind::Str,
    };
    number_of(word_at(line, 1).as_bytes(), kind)
}

/// What a row came to.
fn told_row(sheet: &mut Sheet, came: Result<Computed, RowFault>) {
    match came {
        Ok(Computed::Gives(given)) => told_value(sheet, &given),
        Ok(Computed::Raises(raised)) => {
            sheet.text("panics: ");
            sheet.bytes(raised.bytes(), "not UTF-8");
        }
        Err(RowFault::Wrong(why)) => told_wrong(sheet, why),
        Err(RowFault::OutOfMemory) => sheet.text("no memory"),
    }
}

/// What the row comes to that a line names, where it only computes.
pub fn row_answer(
    alloc: Global,
    sheet: &mut Sheet,
    limits: &Limits,
    line: &str,
) -> Result<(), AllocError> {
    match row_of(line) {
        None => sheet.text("no such method"),
        Some(row) if row < FIRST_OF_ARRAY => {
            let values = values_from(alloc, line, 2)?;
            told_row(sheet, value_row(alloc, limits, row, &values));
        }
        Some(_) => sheet.text("works on objects"),
    }
    Ok(())
}
