//! Which call a line is.
//!
//! Each function knows some of the calls, and hands the others on.

use crate::frames::{
    enter, first, move_back, move_in, move_out, push, register_answer, told_frame,
};
use crate::heaps::{append, make, object_answer, put_in, take_out, write};
use crate::parcels::{cut_out, join_all, under};
use crate::stage::Stage;
use crate::values::{id_at, value_at};
use crate::waiting::{pending_answer, wait_for};
use ink_sheet::{Sheet, word_at};
use std::alloc::{AllocError, Global};

/// What the call of a line comes to.
pub fn answer(
    alloc: Global,
    sheet: &mut Sheet,
    stage: &mut Stage,
    line: &str,
) -> Result<(), AllocError> {
    match word_at(line, 0) {
        "make" => make(alloc, sheet, &mut stage.heap, line),
        "write" => write(alloc, sheet, &mut stage.heap, line),
        "append" => append(alloc, sheet, &mut stage.heap, line),
        "put_in" => put_in(sheet, stage, id_at(line, 1)),
        "cut" => cut_out(alloc, sheet, stage, line),
        "under" => under(alloc, sheet, &stage.heap, line),
        "wait_for" => wait_for(alloc, sheet, &mut stage.pending, line),
        word => frame_answer(alloc, sheet, stage, word, line),
    }
}

/// The same, of the calls of frames.
fn frame_answer(
    alloc: Global,
    sheet: &mut Sheet,
    stage: &mut Stage,
    word: &str,
    line: &str,
) -> Result<(), AllocError> {
    match word {
        "frame" => push(alloc, sheet, &mut stage.frames, line),
        "first" => {
            stage.frames = first(alloc, line)?;
            told_frame(sheet, stage.frames.top());
            Ok(())
        }
        "enter" => enter(alloc, sheet, &mut stage.frames, line),
        "move_out" => move_out(alloc, sheet, stage, line),
        "move_in" => move_in(alloc, sheet, stage, line),
        "move_back" => move_back(alloc, sheet, stage, line),
        _ => other_answer(alloc, sheet, stage, word, line),
    }
}

/// The same, of the other calls.
fn other_answer(
    alloc: Global,
    sheet: &mut Sheet,
    stage: &mut Stage,
    word: &str,
    line: &str,
) -> Result<(), AllocError> {
    match word {
        "join" => join_all(alloc, sheet, stage),
        "take_out" => take_out(sheet, stage, &id_at(line, 1)),
        "wait" | "waiting" | "next" | "drop_next" | "take_apart" => {
            pending_answer(sheet, stage, word, line);
        }
        "kind" | "size" | "count" | "objects" | "read" | "borrow" | "end" | "free" | "chop" => {
            object_answer(sheet, &mut stage.heap, word, line);
        }
        _ => register_answer(
            sheet,
            &mut stage.frames,
            word,
            line,
            value_at(alloc, line, 2)?,
        ),
    }
    Ok(())
}
