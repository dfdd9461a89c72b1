//! Cases of the interpreter: codes and what becomes of a process that runs them.
//!
//! The cases are data. Each word of the command line names a file of them; a case is a code as the assembler reads it,
//! and behind it what is done with a process, line by line. The program prints each such line with what came of it.
//! What should come is not known here: it stands in the file `stdout`, with which the print is compared.
#![tactic(auto)]

mod answers;
mod assembler;
mod bench;
mod case;
mod instructions;
mod limits;
mod looks;
mod told;
mod words;

use crate::case::Case;
use ink_sheet::Sheet;
use std::rt::{Env, Files};
use std::{env, fs, io};

/// Runs the cases of a file.
fn run_file<R: Files + AllocGlobal>(rt: &R, sheet: &mut Sheet, path: &str) -> io::Result<()> {
    let alloc = rt.alloc();
    let text = fs::read_to_string(rt, path)?;
    let mut case = Case::new(alloc);
    for line in text.as_str().lines() {
        case.read(alloc, sheet, line)?;
    }
    Ok(())
}

fn main(rt: HostRuntime) -> io::Result<()> {
    let Ok(words) = env::args(&rt) else {
        return Ok(());
    };
    let mut sheet = Sheet::new(rt.alloc());
    for path in words.skip(1) {
        run_file(&rt, &mut sheet, path.as_str())?;
    }
    print!(rt; "{}", sheet.whole()?)
}
