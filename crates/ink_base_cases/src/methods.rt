//! The table of the built-in methods, and methods that are looked up in it.

use ink_base::{Kind, Mode, Slot};
use ink_prims::{Row, number_of, row_at};
use ink_sheet::{Sheet, first_word};

/// Each row by its number, and the number of the method of each line, a type and a name.
pub fn tell(sheet: &mut Sheet, lines: &str) {
    sheet.text("BUILT-IN METHODS\n");
    for number in 0..48 {
        sheet.around("", u64::from(number), " ");
        row(sheet, row_at(number));
    }
    for line in lines.lines() {
        sheet.text(line);
        sheet.text(": ");
        found(sheet, number_of_line(line));
    }
    sheet.text("\n");
}

/// The number of the method of a line.
fn number_of_line(line: &str) -> Option<u32> {
    let (kind, name) = first_word(line);
    number_of(name.as_bytes(), kind_of(kind)?)
}

fn found(sheet: &mut Sheet, number: Option<u32>) {
    match number {
        None => sheet.text("None\n"),
        Some(number) => sheet.around("Some(", u64::from(number), ")\n"),
    }
}

/// A row: its receiver, mode, name, operands and result.
fn row(sheet: &mut Sheet, row: Row) {
    sheet.text(kind_name(row.receiver));
    sheet.text(mode_name(row.mode));
    sheet.text(row.name);
    sheet.text(" (");
    operands(sheet, row.operands);
    sheet.text(") ");
    sheet.text(slot_name(row.result));
    sheet.text(if row.fresh { " fresh" } else { "" });
    sheet.text(if row.borrows { " borrows\n" } else { "\n" });
}

fn operands(sheet: &mut Sheet, operands: [Option<Slot>; 2]) {
    let [first, second] = operands;
    if let Some(operand) = first {
        sheet.text(slot_name(operand));
    }
    if let Some(operand) = second {
        sheet.text(" ");
        sheet.text(slot_name(operand));
    }
}

fn kind_of(name: &str) -> Option<Kind> {
    match name {
        "Int" => Some(Kind::Int),
        "Bool" => Some(Kind::Bool),
        "String" => Some(Kind::Str),
        "Array" => Some(Kind::Array),
        "Option" => Some(Kind::Option),
        "Future" => Some(Kind::Future),
        "Promise" => Some(Kind::Promise),
        "Stdout" => Some(Kind::Stdout),
        _ => None,
    }
}

fn kind_name(kind: Kind) -> &'static str {
    match kind {
        Kind::Int => "Int",
        Kind::Bool => "Bool",
        Kind::Str => "String",
        Kind::Array => "Array",
        Kind::Option => "Option",
        Kind::Future => "Future",
        Kind::Promise => "Promise",
        Kind::Stdout => "Stdout",
    }
}

/// How a method takes its receiver, between blanks.
fn mode_name(mode: Mode) -> &'static str {
    match mode {
        Mode::Read => " fn ",
        Mode::Mutate => " fn mut ",
        Mode::Move => " fn move ",
        Mode::Static => " fn static ",
    }
}

fn slot_name(slot: Slot) -> &'static str {
    match slot {
        Slot::Int => "Int",
        Slot::Bool => "Bool",
        Slot::Str => "String",
        Slot::Nil => "Nil",
        Slot::Stdout => "Stdout",
        Slot::Item => "Item",
        Slot::Pair => "Pair",
        Slot::OptInt => "Option[Int]",
        Slot::OptStr => "Option[String]",
        Slot::OptItem => "Option[Item]",
        Slot::OptRef => "Option[ref Item]",
        Slot::OptMut => "Option[mut Item]",
    }
}
