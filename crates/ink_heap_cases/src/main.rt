//! Worked cases of heaps, parcels, processes and of the built-in methods that only compute.
//!
//! The cases stand in files below data/: each line is a call, and what it has to come to stands in the file `stdout`. A
//! line that begins with `#` names the case that begins there, with nothing made yet. Nothing is claimed here: each answer
//! is printed beside its line, for a comparison.
#![tactic(auto)]

mod answers;
mod frames;
mod heaps;
mod parcels;
mod rows;
mod stage;
mod values;
mod waiting;

use crate::answers::answer;
use crate::rows::row_answer;
use crate::stage::Stage;
use ink_base::{Limit, Limits};
use ink_sheet::{Sheet, behind};
use std::{fs, io};

/// Tells of each line of a file what the row of a built-in method comes to.
fn tell_rows(rt: &HostRuntime, sheet: &mut Sheet, file: &str, limits: &Limits) -> io::Result<()> {
    let text = fs::read_to_string(rt, file)?;
    name_file(sheet, file);
    for line in text.lines() {
        sheet.text(line);
        sheet.text("  =>  ");
        row_answer(rt.alloc(), sheet, limits, line)?;
        sheet.text("\n");
    }
    Ok(())
}

/// The line above what is told of a file.
fn name_file(sheet: &mut Sheet, file: &str) {
    sheet.text("== ");
    sheet.text(file);
    sheet.text("\n");
}

/// Tells of each line of a file what the call comes to, one after another.
fn tell_calls(rt: &HostRuntime, sheet: &mut Sheet, file: &str) -> io::Result<()> {
    let text = fs::read_to_string(rt, file)?;
    name_file(sheet, file);
    let mut stage = Stage::new(rt.alloc());
    for line in text.lines() {
        sheet.text(line);
        if behind(line, "#").is_some() {
            stage = Stage::new(rt.alloc());
        } else {
            sheet.text("  =>  ");
            answer(rt.alloc(), sheet, &mut stage, line)?;
        }
        sheet.text("\n");
    }
    Ok(())
}

/// The usual limits, but for texts, which have at most five bytes.
fn short_texts() -> Limits {
    let usual = Limits::defaults();
    usual.with(Limit::Text, 5).unwrap_or(usual)
}

fn main(rt: HostRuntime) -> io::Result<()> {
    let mut sheet = Sheet::new(rt.alloc());
    tell_rows(&rt, &mut sheet, "rows", &Limits::defaults())?;
    tell_rows(&rt, &mut sheet, "rows_of_two_texts", &short_texts())?;
    for file in ["heaps", "parcels", "processes"] {
        tell_calls(&rt, &mut sheet, file)?;
    }
    print!(rt; "{}", sheet.whole()?)
}
