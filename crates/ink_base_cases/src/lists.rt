//! Small lists, the journal, texts that are joined, and the bytes of a token.

use ink_base::{Items, Journal, Text, TextFault, Token, TokenKind};
use ink_sheet::Sheet;
use std::alloc::{AllocError, Global};

/// Each of them at its ends.
pub fn tell(alloc: Global, sheet: &mut Sheet) -> Result<(), AllocError> {
    sheet.text("LISTS\n");
    list(alloc, sheet)?;
    journal(alloc, sheet)?;
    join(alloc, sheet, 5)?;
    join(alloc, sheet, 4)?;
    join(alloc, sheet, 0)?;
    token(sheet);
    sheet.text("\n");
    Ok(())
}

/// A list that is empty, filled and changed.
fn list(alloc: Global, sheet: &mut Sheet) -> Result<(), AllocError> {
    let mut list = Items::new(alloc);
    look(sheet, &mut list);
    list.push(7)?;
    list.push(8)?;
    list.push(9)?;
    sheet.around("6 in place of ", u64::from(list.set(0, 6)), ": ");
    listed(sheet, list.as_slice());
    sheet.text("\n");
    look(sheet, &mut list);
    Ok(())
}

/// Tells the length, two items and the last, which is taken away.
fn look(sheet: &mut Sheet, list: &mut Items<u8>) {
    sheet.around("", list.len(), " items: ");
    item(sheet, list.get(2));
    sheet.text(" ");
    item(sheet, list.get(3));
    sheet.text(" ");
    item(sheet, list.pop().as_ref());
    sheet.text("\n");
}

fn item(sheet: &mut Sheet, item: Option<&u8>) {
    match item {
        None => sheet.text("None"),
        Some(item) => sheet.around("Some(", u64::from(*item), ")"),
    }
}

/// Bytes as a list of numbers.
pub fn listed(sheet: &mut Sheet, bytes: &[u8]) {
    let mut before = "[";
    for byte in bytes {
        sheet.numbered(before, u64::from(*byte));
        before = ", ";
    }
    sheet.text(if bytes.is_empty() { "[]" } else { "]" });
}

fn journal(alloc: Global, sheet: &mut Sheet) -> Result<(), AllocError> {
    let mut journal = Journal::new(alloc);
    journal.reserve(2)?;
    journal.add(7);
    journal.add(3);
    for index in &[0, 1, 2, u64::MAX] {
        entry(sheet, &journal, *index);
    }
    Ok(())
}

fn entry(sheet: &mut Sheet, journal: &Journal, index: u64) {
    sheet.around("entry ", index, ": ");
    match journal.get(index) {
        None => sheet.text("None\n"),
        Some(process) => sheet.around("Some(", u64::from(process), ")\n"),
    }
}

fn join(alloc: Global, sheet: &mut Sheet, most: u64) -> Result<(), AllocError> {
    let one = Text::of(alloc, b"ab")?;
    let other = Text::of(alloc, b"cde")?;
    sheet.around("ab and cde, at most ", most, ": ");
    joined(sheet, one.join(alloc, &other, most));
    Ok(())
}

/// What a join comes to.
fn joined(sheet: &mut Sheet, came: Result<Text, TextFault>) {
    match came {
        Ok(text) => listed(sheet, text.bytes()),
        Err(TextFault::TooLong(length)) => sheet.around("", length, " is too long"),
        Err(TextFault::OutOfMemory) => sheet.text("no memory"),
    }
    sheet.text("\n");
}

fn token(sheet: &mut Sheet) {
    let token = Token {
        kind: TokenKind::Name,
        start: 4,
        end: 6,
        new_line: false,
    };
    sheet.text("bytes 4 to 6 of let ab: ");
    listed(sheet, token.text(b"let ab"));
    sheet.text("\n");
}
