//! The line and the column of each byte of a source, and numbers as decimal digits.

use ink_base::Place;
use ink_sheet::Sheet;
use ink_text::{decimal, place_of};
use std::alloc::{AllocError, Global};

/// The places of three sources, and some numbers.
pub fn tell(alloc: Global, sheet: &mut Sheet) -> Result<(), AllocError> {
    sheet.text("PLACES\nof \"ab\\ncd\\r\\n\\ne\"\n");
    places(sheet, b"ab\ncd\r\n\ne");
    sheet.text("of \"\"\n");
    places(sheet, b"");
    sheet.text("of \"\u{e9}a\"\n");
    places(sheet, b"\xC3\xA9a");
    for number in &[0, -1, 10, -1203, i64::MIN, i64::MAX] {
        sheet.bytes(decimal(alloc, *number)?.bytes(), "not UTF-8");
        sheet.text("\n");
    }
    sheet.text("\n");
    Ok(())
}

/// The place of each byte, and of the end.
fn places(sheet: &mut Sheet, source: &[u8]) {
    for byte in 0..100u32 {
        if source.len() < byte as usize {
            return;
        }
        place(sheet, byte, place_of(source, byte));
    }
}

fn place(sheet: &mut Sheet, byte: u32, place: Place) {
    sheet.numbered("", u64::from(byte));
    sheet.numbered(" ", u64::from(place.line));
    sheet.around(":", u64::from(place.column), "\n");
}
