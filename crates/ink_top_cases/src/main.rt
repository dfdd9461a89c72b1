//! Worked cases of the top call over files and sinks in memory: words, and how the call ends.
//!
//! In files below data/ each line has the name of the file that is held, whose bytes stand in data/ too, and behind it
//! the words. What has to be printed stands in the file `stdout`. Nothing is claimed here: each answer is printed below
//! its line, for a comparison.
#![tactic(auto)]

mod devices;

use crate::devices::{CaseFiles, CountingSink, Devices, Plan, Reading, sink};
use ink_base::{Journal, Text};
use ink_devices::{MemSink, OpenGate};
use ink_sheet::Sheet;
use ink_top::{Ended, inko_main};
use std::alloc::{AllocError, Global};
use std::rt::Files;
use std::thread::Threads;
use std::{fs, io, str};

/// A sink that never fails.
const SOUND: Plan = Plan {
    first: 1000,
    failing: &[],
};

/// A sink that takes three bytes, and fails at its second call.
const CUT_EARLY: Plan = Plan {
    first: 3,
    failing: &[2],
};

/// A sink that takes six bytes, and fails at its second call.
const CUT_LATE: Plan = Plan {
    first: 6,
    failing: &[2],
};

/// A sink that takes six bytes, and then no more.
const CUT_FOR_GOOD: Plan = Plan {
    first: 6,
    failing: &[2, 3],
};

/// The files of cases, each with what the read of the file comes to, and how output and errors fail.
static CASES: [(&str, Reading, Plan, Plan); 11] = [
    ("runs", Reading::Bytes, SOUND, SOUND),
    ("checks", Reading::Bytes, SOUND, SOUND),
    ("refusals", Reading::Bytes, SOUND, SOUND),
    ("prints", Reading::Bytes, SOUND, SOUND),
    ("wrong_words", Reading::Bytes, SOUND, SOUND),
    ("failing_output", Reading::Bytes, CUT_EARLY, SOUND),
    ("failing_output_untold", Reading::Bytes, CUT_EARLY, CUT_LATE),
    ("failing_errors", Reading::Fault, SOUND, CUT_LATE),
    (
        "failing_errors_for_good",
        Reading::Fault,
        SOUND,
        CUT_FOR_GOOD,
    ),
    ("no_memory", Reading::NoMemory, SOUND, SOUND),
    ("no_memory_untold", Reading::NoMemory, SOUND, CUT_EARLY),
];

/// The words of a command.
fn words_of(alloc: Global, command: &str) -> Result<Vec<Text>, AllocError> {
    let mut words = Vec::new(alloc);
    for word in command.split_whitespace() {
        words.push(Text::of(alloc, word.as_bytes())?)?;
    }
    Ok(words)
}

/// The entries of a journal, with a blank before each.
fn entries(sheet: &mut Sheet, journal: &Journal) {
    for index in 0..journal.len() {
        if let Some(entry) = journal.get(index) {
            sheet.text(" ");
            sheet.plain(&entry);
        }
    }
}

/// The characters of what was written.
fn shown(bytes: &[u8]) -> &str {
    str::from_utf8(bytes).unwrap_or("no UTF-8")
}

/// How a call ended, and what it wrote.
fn told(sheet: &mut Sheet, ended: &Ended<CountingSink>, err: &MemSink) {
    sheet.text("\n  status ");
    sheet.plain(&ended.status);
    sheet.text("\n  journal:");
    entries(sheet, &ended.journal);
    sheet.text("\n  out, calls ");
    sheet.plain(&ended.out.calls);
    sheet.text(": ");
    sheet.shown(&shown(ended.out.sink.bytes()));
    sheet.text("\n  err: ");
    sheet.shown(&shown(err.bytes()));
    sheet.text("\n");
}

/// How the call of these words ends, where this file is held.
fn answer<R: Threads + Sync>(
    rt: &R,
    alloc: Global,
    sheet: &mut Sheet,
    file: &str,
    source: Vec<u8>,
    words: &[Text],
    devices: Devices,
) -> Result<(), AllocError> {
    let mut files = CaseFiles::with_file(alloc, file, source, devices.reading)?;
    let out = CountingSink {
        sink: sink(alloc, devices.out)?,
        calls: 0,
    };
    let mut err = sink(alloc, devices.err)?;
    let ended = inko_main(rt, alloc, words, &mut files, out, &mut err, &OpenGate);
    told(sheet, &ended, &err);
    Ok(())
}

/// Tells the line of a case, and how its call ends.
fn show_case<R: Files + AllocGlobal + Threads + Sync>(
    rt: &R,
    sheet: &mut Sheet,
    line: &str,
    devices: Devices,
) -> io::Result<()> {
    sheet.text("\n");
    sheet.text(line);
    match line.split_once(":") {
        None => sheet.text(" is no case\n"),
        Some((file, command)) => {
            let source = fs::read(rt, file)?;
            let words = words_of(rt.alloc(), command)?;
            answer(rt, rt.alloc(), sheet, file, source, &words, devices)?;
        }
    }
    Ok(())
}

/// Tells the cases of a file.
fn show_cases<R: Files + AllocGlobal + Threads + Sync>(
    rt: &R,
    sheet: &mut Sheet,
    file: &str,
    devices: Devices,
) -> io::Result<()> {
    let cases = fs::read_to_string(rt, file)?;
    sheet.text("== ");
    sheet.text(file);
    sheet.text("\n");
    for line in cases.lines() {
        show_case(rt, sheet, line, devices)?;
    }
    sheet.text("\n");
    Ok(())
}

fn main(rt: HostRuntime) -> io::Result<()> {
    let mut sheet = Sheet::new(rt.alloc());
    for (file, reading, out, err) in CASES {
        let devices = Devices { reading, out, err };
        show_cases(&rt, &mut sheet, file, devices)?;
    }
    print!(rt; "{}", sheet.whole()?)
}
