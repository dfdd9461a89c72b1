//! What is to be seen of a process.

use crate::told::{numbered, value, values};
use ink_base::ObjectId;
use ink_code::Frame;
use ink_heap::Heap;
use ink_proc::Proc;
use ink_sheet::Sheet;
use std::alloc::{AllocError, Global};

/// All that tells of a process: its two counts, its frames, its objects and its drops that wait.
pub fn all_of(alloc: Global, process: &Proc) -> Result<String, AllocError> {
    let mut sheet = Sheet::new(alloc);
    sheet.plain(&process.made);
    sheet.text(" ");
    sheet.plain(&process.ran);
    sheet.shown(&process.frames);
    sheet.shown(&process.heap);
    sheet.shown(&process.pending);
    sheet.whole()
}

/// A frame in a line, with a line break before it.
fn frame(sheet: &mut Sheet, frame: &Frame) {
    numbered(sheet, "\n    method ", u64::from(frame.method));
    numbered(sheet, " at ", u64::from(frame.place));
    sheet.text(":");
    values(sheet, frame.registers.as_slice());
}

/// How many frames there are, and each with its registers in a line, the outermost first.
pub fn frames(sheet: &mut Sheet, process: &Proc) {
    sheet.plain(&process.frames.len());
    for one in process.frames.as_slice() {
        frame(sheet, one);
    }
}

/// The value in a field of an object, behind a blank. Nothing where there is none.
fn field(sheet: &mut Sheet, heap: &Heap, id: &ObjectId, field: u64) {
    if let Some(held) = heap.read(id, field) {
        sheet.text(" ");
        value(sheet, held);
    }
}

/// The values in the fields of an object, of which there are so many.
fn fields(sheet: &mut Sheet, heap: &Heap, id: &ObjectId, size: u64) {
    for number in 0..size {
        field(sheet, heap, id, number);
    }
}

/// An object in a line, with a line break before it. Nothing where it isn't there.
fn object(sheet: &mut Sheet, heap: &Heap, id: &ObjectId) {
    if let Some((kind, tag)) = heap.kind_of(id) {
        numbered(sheet, "\n    ", u64::from(id.process));
        numbered(sheet, ".", id.serial);
        numbered(sheet, " type ", u64::from(kind));
        numbered(sheet, " tag ", u64::from(tag));
        numbered(sheet, " borrows ", heap.count(id).unwrap_or(0));
        sheet.text(":");
        fields(sheet, heap, id, heap.size(id).unwrap_or(0));
    }
}

/// The objects that a process has of those that it made, each in a line.
pub fn objects(sheet: &mut Sheet, process: &Proc) {
    sheet.plain(&process.heap.len());
    for serial in 1..process.made.saturating_add(1) {
        let id = ObjectId {
            process: process.number,
            serial,
        };
        object(sheet, &process.heap, &id);
    }
}

/// How many values wait to be dropped, and the next of them; and how many objects there are.
pub fn waiting(sheet: &mut Sheet, process: &Proc) {
    match process.pending.first() {
        None => sheet.text("none"),
        Some(next) => {
            sheet.plain(&process.pending.len());
            sheet.text(", next ");
            value(sheet, next);
        }
    }
    sheet.text("; objects ");
    sheet.plain(&process.heap.len());
}
