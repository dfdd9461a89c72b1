//! The calls of a heap. The first value of a line is the owner of the object that the call names.

use crate::stage::Stage;
use crate::values::{id_at, told_found, told_values, told_with, value_at, values_from};
use ink_base::{Items, ObjectId};
use ink_heap::{FreeFault, Heap, MOST_BORROWS, MakeFault, PushFault};
use ink_sheet::{Sheet, number_at};
use std::alloc::{AllocError, Global};

/// The type and the tag of each object that is made.
const KIND: u32 = 7;

const TAG: u32 = 2;

/// `make @1 9 5 6`: an object with the fields 5 and 6, where fewer than 9 live.
pub fn make(
    alloc: Global,
    sheet: &mut Sheet,
    heap: &mut Heap,
    line: &str,
) -> Result<(), AllocError> {
    let fields = Items::of(values_from(alloc, line, 3)?);
    let id = id_at(line, 1);
    if heap.count(&id).is_some() {
        sheet.text("there already");
        return Ok(());
    }
    match heap.make(id, KIND, TAG, fields, number_at(line, 2)) {
        Ok(()) => sheet.text("made"),
        Err(MakeFault::Full(fields)) => told_values(sheet, "full, back", fields.as_slice()),
        Err(MakeFault::OutOfMemory(_)) => return Err(AllocError),
    }
    Ok(())
}

/// `write @1 0 8`: a field gets a value.
pub fn write(
    alloc: Global,
    sheet: &mut Sheet,
    heap: &mut Heap,
    line: &str,
) -> Result<(), AllocError> {
    match heap.write(
        &id_at(line, 1),
        number_at(line, 2),
        value_at(alloc, line, 3)?,
    ) {
        Ok(old) => told_with(sheet, "had ", &old),
        Err(back) => told_with(sheet, "absent, back ", &back),
    }
    Ok(())
}

/// `append @1 3 nil`: a further field, where there are fewer than 3.
pub fn append(
    alloc: Global,
    sheet: &mut Sheet,
    heap: &mut Heap,
    line: &str,
) -> Result<(), AllocError> {
    match heap.push(
        &id_at(line, 1),
        value_at(alloc, line, 3)?,
        number_at(line, 2),
    ) {
        Ok(()) => sheet.text("appended"),
        Err(PushFault::Absent(back)) => told_with(sheet, "absent, back ", &back),
        Err(PushFault::Full(back)) => told_with(sheet, "full, back ", &back),
        Err(PushFault::OutOfMemory(_)) => return Err(AllocError),
    }
    Ok(())
}

/// `borrow @1`: one borrow more is counted.
fn borrow(sheet: &mut Sheet, heap: &mut Heap, id: &ObjectId) {
    match heap.count(id) {
        Some(count) if count >= MOST_BORROWS => sheet.text("most borrows"),
        _ => sheet.truth(heap.count_up(id)),
    }
}

/// `free @1`: an object goes that has no borrows, and gives its fields.
fn free(sheet: &mut Sheet, heap: &mut Heap, id: &ObjectId) {
    match heap.free(id) {
        Ok(fields) => told_values(sheet, "freed", fields.as_slice()),
        Err(FreeFault::Absent) => sheet.text("absent"),
        Err(FreeFault::Borrowed(count)) => sheet.numbered("borrowed ", count),
    }
}

/// `take_out @1`: an object is taken out, with its count.
pub fn take_out(sheet: &mut Sheet, stage: &mut Stage, id: &ObjectId) {
    match stage.heap.take_out(id) {
        None => sheet.text("absent"),
        Some(object) => {
            told_values(sheet, "taken out", object.fields.as_slice());
            stage.taken = Some(object);
        }
    }
}

/// `put_in @2`: the object that was taken out is put in under a name.
pub fn put_in(sheet: &mut Sheet, stage: &mut Stage, id: ObjectId) -> Result<(), AllocError> {
    let Some(object) = stage.taken.take() else {
        sheet.text("nothing was taken out");
        return Ok(());
    };
    stage.heap.reserve(1)?;
    match stage.heap.put_in(id, object) {
        Ok(()) => sheet.text("put in"),
        Err(back) => sheet.numbered("there already, back with count ", back.count),
    }
    Ok(())
}

/// The type and the tag of an object.
fn kind(sheet: &mut Sheet, heap: &Heap, id: &ObjectId) {
    match heap.kind_of(id) {
        None => sheet.text("none"),
        Some((kind, tag)) => {
            sheet.numbered("kind ", u64::from(kind));
            sheet.numbered(" tag ", u64::from(tag));
        }
    }
}

/// A number, where there is one.
fn number(sheet: &mut Sheet, given: Option<u64>) {
    match given {
        None => sheet.text("none"),
        Some(given) => sheet.number(given),
    }
}

/// What the call of a heap that names an object, and nothing beside it, comes to.
pub fn object_answer(sheet: &mut Sheet, heap: &mut Heap, word: &str, line: &str) {
    let id = id_at(line, 1);
    match word {
        "kind" => kind(sheet, heap, &id),
        "size" => number(sheet, heap.size(&id)),
        "count" => number(sheet, heap.count(&id)),
        "objects" => sheet.number(heap.len()),
        "read" => told_found(sheet, heap.read(&id, number_at(line, 2))),
        "borrow" => borrow(sheet, heap, &id),
        "end" => sheet.truth(heap.count_down(&id)),
        "free" => free(sheet, heap, &id),
        "chop" => told_found(sheet, heap.pop(&id).as_ref()),
        _ => sheet.text("no such call"),
    }
}
