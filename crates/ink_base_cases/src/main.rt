//! Cases of the base and of the rooms that stand right on it: each line tells a call and its answer.
//!
//! The cases that are data stand in files of the folder that the program runs in. What is expected is the program's
//! `stdout`.
#![tactic(auto)]

mod host;
mod limits;
mod lists;
mod memory;
mod methods;
mod places;
mod refusals;
mod texts;
mod values;
mod words;

use ink_devices::{HostSink, write_whole};
use ink_sheet::Sheet;
use std::alloc::{AllocError, Global};
use std::{fs, io};

fn main(rt: HostRuntime) -> io::Result<()> {
    let mut sheet = Sheet::new(rt.alloc());
    tell_calls(rt.alloc(), &mut sheet)?;
    host::tell(&rt, &mut sheet)?;
    places::tell(rt.alloc(), &mut sheet)?;
    tell_files(&rt, &mut sheet)?;
    print!(rt; "{}", sheet.whole()?)?;
    let _ = write_whole(&mut HostSink::new(rt.stdout()), b"a stream of the system\n");
    Ok(())
}

/// Tells of the calls whose cases stand in the program.
fn tell_calls(alloc: Global, sheet: &mut Sheet) -> Result<(), AllocError> {
    refusals::tell(alloc, sheet)?;
    limits::tell(sheet);
    lists::tell(alloc, sheet)?;
    values::tell(alloc, sheet)?;
    memory::tell(alloc, sheet)
}

/// Tells of the lines of each file of cases.
fn tell_files(rt: &HostRuntime, sheet: &mut Sheet) -> io::Result<()> {
    let alloc = rt.alloc();
    texts::tell(alloc, sheet, &fs::read_to_string(rt, "utf8.txt")?)?;
    methods::tell(sheet, &fs::read_to_string(rt, "methods.txt")?);
    words::tell(alloc, sheet, &fs::read_to_string(rt, "words.txt")?)?;
    Ok(())
}
