//! Bytes that are UTF-8, and bytes that stop being so.

use ink_sheet::{Sheet, words_from};
use ink_text::{NotUtf8, decode};
use std::alloc::{AllocError, Global};

/// Each line of bytes, written in hexadecimal, with what is found of them.
pub fn tell(alloc: Global, sheet: &mut Sheet, lines: &str) -> Result<(), AllocError> {
    sheet.text("UTF-8\n");
    for line in lines.lines() {
        sheet.text(line);
        let bytes = bytes(alloc, line)?;
        match decode(&bytes) {
            Ok(()) => sheet.text(": it is\n"),
            Err(NotUtf8(byte)) => sheet.around(": stops at ", byte, "\n"),
        }
    }
    sheet.text("\n");
    Ok(())
}

/// The value of a hexadecimal digit.
fn digit(byte: u8) -> u8 {
    match byte {
        b'0'..=b'9' => byte - b'0',
        b'A'..=b'F' => byte - b'A' + 10,
        _ => 0,
    }
}

/// The bytes that the words of a line are in hexadecimal, two digits each.
fn bytes(alloc: Global, line: &str) -> Result<Vec<u8>, AllocError> {
    let mut bytes = Vec::new(alloc);
    for word in words_from(alloc, line, 0)? {
        if let [high, low] = word.as_bytes() {
            bytes.push((digit(*high) << 4) | digit(*low))?;
        }
    }
    Ok(bytes)
}
