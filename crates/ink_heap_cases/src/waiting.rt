//! The calls of drops that wait.

use crate::stage::{Stage, told_wrong};
use crate::values::{id_at, told_found, values_from};
use ink_proc::{Pending, TakeApartFault, WaitFault};
use ink_sheet::{Sheet, small_at};
use std::alloc::{AllocError, Global};

/// `wait 1`: the value of register 1 waits to be dropped.
fn wait(sheet: &mut Sheet, stage: &mut Stage, register: u32) {
    match stage.pending.push_from(&mut stage.frames, register) {
        Ok(()) => sheet.text("waits"),
        Err(WaitFault::Wrong(why)) => told_wrong(sheet, why),
        Err(WaitFault::OutOfMemory) => sheet.text("no memory"),
    }
}

/// `wait_for 1 @2`: these values wait to be dropped, the last of them first.
pub fn wait_for(
    alloc: Global,
    sheet: &mut Sheet,
    pending: &mut Pending,
    line: &str,
) -> Result<(), AllocError> {
    for value in values_from(alloc, line, 1)? {
        pending.push(value)?;
    }
    sheet.text("waits");
    Ok(())
}

/// `take_apart @1`: the fields of object 1, whose owner is the next, wait in its place.
fn take_apart(sheet: &mut Sheet, stage: &mut Stage, line: &str) {
    match stage.pending.take_apart(&mut stage.heap, &id_at(line, 1)) {
        Ok(()) => sheet.text("taken apart"),
        Err(TakeApartFault::Absent) => sheet.text("absent"),
        Err(TakeApartFault::Borrowed(count)) => sheet.numbered("borrowed ", count),
        Err(TakeApartFault::OutOfMemory) => sheet.text("no memory"),
    }
}

/// What the call of drops that wait comes to.
pub fn pending_answer(sheet: &mut Sheet, stage: &mut Stage, word: &str, line: &str) {
    match word {
        "wait" => wait(sheet, stage, small_at(line, 1)),
        "waiting" => sheet.number(stage.pending.len()),
        "next" => told_found(sheet, stage.pending.first()),
        "drop_next" => told_found(sheet, stage.pending.pop().as_ref()),
        "take_apart" => take_apart(sheet, stage, line),
        _ => sheet.text("no such call"),
    }
}
