//! Values that are copied, and the order of the names of objects.

use ink_base::{ObjectId, Text, Value};
use ink_sheet::Sheet;
use std::alloc::{AllocError, Global};
use std::cmp::Ordering;

/// A copy of each kind of value, and how names stand to one another.
pub fn tell(alloc: Global, sheet: &mut Sheet) -> Result<(), AllocError> {
    sheet.text("VALUES\n");
    plain_values(alloc, sheet)?;
    naming_values(alloc, sheet)?;
    compare(sheet, 1, 9);
    compare(sheet, 2, 1);
    compare(sheet, 2, 2);
    sheet.text("\n");
    Ok(())
}

/// Tells a copy of a value.
fn copied(alloc: Global, sheet: &mut Sheet, value: &Value) -> Result<(), AllocError> {
    sheet.shown(&value.copy(alloc)?);
    sheet.text("\n");
    Ok(())
}

/// A value of each kind that names nothing, but for the empty one.
fn plain_values(alloc: Global, sheet: &mut Sheet) -> Result<(), AllocError> {
    copied(alloc, sheet, &Value::Int(i64::MIN))?;
    copied(alloc, sheet, &Value::Bool(true))?;
    copied(alloc, sheet, &Value::Nil)?;
    copied(alloc, sheet, &Value::Txt(Text::of(alloc, b"ab")?))
}

/// A value of each kind that names something, and the empty one.
fn naming_values(alloc: Global, sheet: &mut Sheet) -> Result<(), AllocError> {
    let id = ObjectId {
        process: 2,
        serial: 1 << 62,
    };
    copied(alloc, sheet, &Value::Own(id))?;
    copied(alloc, sheet, &Value::Bor(id))?;
    copied(alloc, sheet, &Value::Proc(3))?;
    copied(alloc, sheet, &Value::Future(4))?;
    copied(alloc, sheet, &Value::Promise(5))?;
    copied(alloc, sheet, &Value::Empty)
}

/// How a name stands to object 1 of process 2.
fn compare(sheet: &mut Sheet, process: u32, serial: u64) {
    sheet.around("", u64::from(process), ".");
    sheet.around("", serial, " to 2.1: ");
    let other = ObjectId {
        process: 2,
        serial: 1,
    };
    sheet.text(match (ObjectId { process, serial }).compare(&other) {
        Ordering::Less => "Less\n",
        Ordering::Equal => "Equal\n",
        Ordering::Greater => "Greater\n",
    });
}
