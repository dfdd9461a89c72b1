//! The calls of frames. The numbers of a line are those of methods and of registers.

use crate::stage::{Stage, told_wrong};
use crate::values::{told_found, told_value, told_values, value_at, values_from};
use ink_base::{Items, Value};
use ink_code::Frame;
use ink_proc::{EnterFault, Frames};
use ink_sheet::{Sheet, numbers_from, small_at};
use std::alloc::{AllocError, Global};
use std::mem;

/// A frame.
pub fn told_frame(sheet: &mut Sheet, frame: Option<&Frame>) {
    match frame {
        None => sheet.text("none"),
        Some(frame) => {
            sheet.numbered("method ", u64::from(frame.method));
            sheet.numbered(" at ", u64::from(frame.place));
            told_values(sheet, " holds", frame.registers.as_slice());
        }
    }
}

/// `frame 8 1 2`: a frame of method 8 with 1 and 2 in its registers.
pub fn push(
    alloc: Global,
    sheet: &mut Sheet,
    frames: &mut Frames,
    line: &str,
) -> Result<(), AllocError> {
    frames.push(Frame {
        method: small_at(line, 1),
        place: 0,
        registers: Items::of(values_from(alloc, line, 2)?),
    })?;
    sheet.text("pushed");
    Ok(())
}

/// `first 3 4 5 6 7`: the frames in which method 3 begins with 4 registers, of which the first hold 5, 6 and 7.
pub fn first(alloc: Global, line: &str) -> Result<Frames, AllocError> {
    let count = small_at(line, 2);
    let value = value_at(alloc, line, 3)?;
    let others = values_from(alloc, line, 4)?;
    let frames = Vec::with_capacity(alloc, 1)?;
    let room = Vec::with_capacity(alloc, (others.len() + 1).max(count as usize))?;
    let others = Items::of(others);
    Ok(Frames::first(frames, room, small_at(line, 1), count, value, others))
}

/// `enter 9 3 1 0`: a frame of method 9 with 3 registers, to which registers 1 and 0 are moved.
pub fn enter(
    alloc: Global,
    sheet: &mut Sheet,
    frames: &mut Frames,
    line: &str,
) -> Result<(), AllocError> {
    let numbers = numbers_from(alloc, line, 3)?;
    match frames.enter(alloc, small_at(line, 1), small_at(line, 2), &numbers) {
        Ok(()) => sheet.text("entered"),
        Err(EnterFault::Wrong(why)) => told_wrong(sheet, why),
        Err(EnterFault::OutOfMemory) => return Err(AllocError),
    }
    Ok(())
}

/// `move_out 1 0`: the values of registers 1 and 0 are moved out.
pub fn move_out(
    alloc: Global,
    sheet: &mut Sheet,
    stage: &mut Stage,
    line: &str,
) -> Result<(), AllocError> {
    let numbers = numbers_from(alloc, line, 1)?;
    let room = Vec::with_capacity(alloc, numbers.len())?;
    match stage.frames.take_out(room, &numbers) {
        Err(why) => told_wrong(sheet, why),
        Ok(moved) => {
            told_values(sheet, "moved", moved.as_slice());
            stage.moved = moved;
        }
    }
    Ok(())
}

/// `move_in 1 0`: the values that were moved out are moved into registers 1 and 0.
pub fn move_in(
    alloc: Global,
    sheet: &mut Sheet,
    stage: &mut Stage,
    line: &str,
) -> Result<(), AllocError> {
    let moved = mem::replace(&mut stage.moved, Items::new(alloc));
    match stage.frames.put_out(&numbers_from(alloc, line, 1)?, moved) {
        Ok(()) => sheet.text("moved in"),
        Err(why) => told_wrong(sheet, why),
    }
    Ok(())
}

/// `move_back 1 0`: the values that were moved out of registers 1 and 0 go back to them.
pub fn move_back(
    alloc: Global,
    sheet: &mut Sheet,
    stage: &mut Stage,
    line: &str,
) -> Result<(), AllocError> {
    let numbers = numbers_from(alloc, line, 1)?;
    let moved = mem::replace(&mut stage.moved, Items::new(alloc));
    if moved.len() != numbers.len() as u64 {
        sheet.text("another number of values");
    } else {
        stage.frames.put_back(&numbers, moved);
        sheet.text("moved back");
    }
    Ok(())
}

/// What the call of frames that needs no memory comes to. Its value is `given`.
pub fn register_answer(
    sheet: &mut Sheet,
    frames: &mut Frames,
    word: &str,
    line: &str,
    given: Value,
) {
    let number = small_at(line, 1);
    match word {
        "frames" => sheet.number(frames.len()),
        "top" => told_frame(sheet, frames.top()),
        "pop" => told_frame(sheet, frames.pop().as_ref()),
        "has" => sheet.truth(frames.has(number)),
        "register" => told_found(sheet, frames.register(number)),
        "swap" => sheet.truth(frames.swap(number, small_at(line, 2))),
        "set" => told_found(sheet, frames.set(number, given).as_ref()),
        _ => place_answer(sheet, frames, word, number, given),
    }
}

/// The same, of the calls that change a register or the place.
fn place_answer(sheet: &mut Sheet, frames: &mut Frames, word: &str, number: u32, given: Value) {
    match word {
        "take" => match frames.take(number) {
            Ok(taken) => told_value(sheet, &taken),
            Err(why) => told_wrong(sheet, why),
        },
        "give_back" => {
            frames.give_back(number, given);
            sheet.text("given back");
        }
        "go_on" => {
            frames.go_on(number);
            told_frame(sheet, frames.top());
        }
        _ => sheet.text("no such call"),
    }
}
