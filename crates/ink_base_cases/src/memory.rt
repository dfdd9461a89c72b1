//! Files and sinks in memory that fail by a plan.

use crate::lists::listed;
use ink_base::Text;
use ink_devices::{Failed, FileFault, Files, MemFiles, MemSink, Sink, write_whole};
use ink_sheet::Sheet;
use std::alloc::{AllocError, Global};

/// What the calls answer, in order, and what the files and the sinks hold then.
pub fn tell(alloc: Global, sheet: &mut Sheet) -> Result<(), AllocError> {
    sheet.text("FAILURES BY A PLAN\n");
    calls(alloc, sheet)?;
    sink(alloc, sheet)?;
    whole(alloc, sheet)?;
    sheet.text("\n");
    Ok(())
}

/// Tells what a read of files answers.
pub fn read<F: Files>(
    alloc: Global,
    sheet: &mut Sheet,
    files: &mut F,
    name: &[u8],
    most: u64,
) -> Result<(), AllocError> {
    let name = Text::of(alloc, name)?;
    match files.read(alloc, &name, most) {
        Ok(bytes) => {
            sheet.around("", most, " bytes: ");
            listed(sheet, &bytes);
            sheet.text("\n");
            Ok(())
        }
        Err(fault) => failed(sheet, fault, "a read fails\n"),
    }
}

/// Tells that a call of files fails.
fn failed(sheet: &mut Sheet, fault: FileFault, told: &str) -> Result<(), AllocError> {
    match fault {
        FileFault::Failed => {
            sheet.text(told);
            Ok(())
        }
        FileFault::OutOfMemory => Err(AllocError),
    }
}

/// Tells what a write of files answers.
pub fn write<F: Files>(
    alloc: Global,
    sheet: &mut Sheet,
    files: &mut F,
    name: &[u8],
    bytes: &[u8],
) -> Result<(), AllocError> {
    let name = Text::of(alloc, name)?;
    match files.write(&name, bytes) {
        Ok(()) => {
            sheet.text("written\n");
            Ok(())
        }
        Err(fault) => failed(sheet, fault, "a write fails\n"),
    }
}

/// Tells how many bytes of a piece a sink takes.
pub fn send<K: Sink>(sheet: &mut Sheet, sink: &mut K, piece: &str) {
    sheet.text("'");
    sheet.text(piece);
    match sink.write(piece.as_bytes()) {
        Ok(count) => sheet.numbered("' takes ", count as u64),
        Err(Failed) => sheet.text("' fails"),
    }
    sheet.text("\n");
}

/// The numbers of a plan.
fn numbers(alloc: Global, numbers: &[u64]) -> Result<Vec<u64>, AllocError> {
    let mut plan = Vec::new(alloc);
    for number in numbers {
        plan.push(*number)?;
    }
    Ok(plan)
}

/// Files of which one holds `hello`, and whose fourth call is to fail.
fn planned(alloc: Global) -> Result<MemFiles, AllocError> {
    let name = Text::of(alloc, b"a")?;
    let bytes = Vec::from_slice(alloc, b"hello")?;
    let mut held = Vec::new(alloc);
    held.push((name, bytes))?;
    Ok(MemFiles::new(held, numbers(alloc, &[4])?))
}

fn calls(alloc: Global, sheet: &mut Sheet) -> Result<(), AllocError> {
    let mut files = planned(alloc)?;
    read(alloc, sheet, &mut files, b"a", 3)?;
    write(alloc, sheet, &mut files, b"b", b"xy")?;
    read(alloc, sheet, &mut files, b"b", 10)?;
    read(alloc, sheet, &mut files, b"a", 10)?;
    read(alloc, sheet, &mut files, b"c", 10)?;
    write(alloc, sheet, &mut files, b"a", b"")?;
    held(sheet, files.get(&Text::of(alloc, b"a")?));
    held(sheet, files.get(&Text::of(alloc, b"b")?));
    held(sheet, files.get(&Text::of(alloc, b"c")?));
    Ok(())
}

/// What a file holds.
fn held(sheet: &mut Sheet, bytes: Option<&[u8]>) {
    match bytes {
        None => sheet.text("held: None\n"),
        Some(bytes) => {
            sheet.text("held: Some(");
            listed(sheet, bytes);
            sheet.text(")\n");
        }
    }
}

/// A sink with room for four bytes, whose first calls take at most two bytes and none, and whose sixth is to fail.
fn sink(alloc: Global, sheet: &mut Sheet) -> Result<(), AllocError> {
    let (failing, short) = (numbers(alloc, &[6])?, numbers(alloc, &[2, 0])?);
    let mut sink = MemSink::new(alloc, 4, failing, short)?;
    for piece in &["abc", "c", "", "cde", "cd", "", "e"] {
        send(sheet, &mut sink, piece);
    }
    sheet.text("the sink holds ");
    listed(sheet, sink.bytes());
    sheet.text("\n");
    Ok(())
}

/// A sink that counts its calls.
#[derive(Drop)]
struct Counting {
    sink: MemSink,
    calls: u64,
}

impl Sink for Counting {
    ghost use Rattle.std.specs.Prelude.{Some};

    ghost contents = { λ s. Some s.sink.bytes };

    ghost faults = { λ s. s.sink.faults };

    fn write(&mut self, piece: &[u8]) -> Result<usize, Failed> {
        self.calls = self.calls.saturating_add(1);
        self.sink.write(piece)
    }
}

/// A text that is written whole into a sink whose first call takes three bytes and whose second is to fail.
fn whole(alloc: Global, sheet: &mut Sheet) -> Result<(), AllocError> {
    let (failing, short) = (numbers(alloc, &[2])?, numbers(alloc, &[3])?);
    let sink = MemSink::new(alloc, 100, failing, short)?;
    let mut counting = Counting { sink, calls: 0 };
    sheet.text("written ");
    sheet.truth(write_whole(&mut counting, b"hello\n").is_ok());
    sheet.text(", ");
    listed(sheet, counting.sink.bytes());
    sheet.around(" in ", counting.calls, " calls\n");
    Ok(())
}
