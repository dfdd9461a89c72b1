//! Worked cases of the table of core forms: sources and the listings of their core forms, parts of texts and what they
//! stand for.
//!
//! The sources stand in files below data/, and what has to be printed in the file `stdout`. Nothing is claimed here:
//! each answer is printed below its source, for a comparison.
#![tactic(auto)]

use ink_base::{JudgeFault, Limits, Text};
use ink_desugar::desugar;
use ink_listing::list_module;
use ink_reading::read_module;
use ink_tables::unescaped_part;
use std::alloc::{AllocError, Global};
use std::rt::Files;
use std::{fs, io, str};

/// The files of sources, with an empty line between two.
const SOURCES: [&str; 15] = [
    "texts",
    "writes",
    "statements",
    "calls_and_names",
    "constructed",
    "links",
    "tuples_and_the_rest",
    "and_or",
    "conditions",
    "loops",
    "errors",
    "arms_and_returns",
    "declarations",
    "patterns",
    "operators",
];

/// The file whose lines are parts of texts.
const PARTS: &str = "escapes";

/// The characters of a text.
fn shown(bytes: &[u8]) -> &str {
    str::from_utf8(bytes).unwrap_or("no UTF-8")
}

/// The listing of the core form of a source, where it is a module.
fn listed(alloc: Global, source: &[u8]) -> Result<Text, AllocError> {
    let reading = match read_module(alloc, source, &Limits::defaults()) {
        Ok(reading) => reading,
        Err(JudgeFault::Refused(_)) => return Text::of(alloc, b"\nrefused"),
        Err(JudgeFault::OutOfMemory) => return Err(AllocError),
    };
    let core = desugar(alloc, source, &reading.module)?;
    let mut out = Vec::new(alloc);
    list_module(alloc, &core, &mut out)?;
    Ok(Text::from_bytes(out))
}

/// Prints each source of a file and its listing.
fn show_lists<R: Files + Print + AllocGlobal>(rt: &R, file: &str) -> io::Result<()> {
    println!(rt; "== {file}\n")?;
    let sources = fs::read_to_string(rt, file)?;
    for source in sources.trim_end().split("\n\n") {
        let listing = listed(rt.alloc(), source.as_bytes())?;
        println!(rt; "{source}{}\n", shown(listing.bytes()))?;
    }
    Ok(())
}

/// Prints each part of a text, and what it stands for.
fn show_parts<R: Files + Print + AllocGlobal>(rt: &R, file: &str) -> io::Result<()> {
    println!(rt; "== {file}")?;
    let parts = fs::read_to_string(rt, file)?;
    for part in parts.lines() {
        let text = unescaped_part(rt.alloc(), part.as_bytes())?;
        println!(rt; "{part}  =>  {:?}", shown(text.bytes()))?;
    }
    Ok(())
}

fn main(rt: HostRuntime) -> io::Result<()> {
    for file in SOURCES {
        show_lists(&rt, file)?;
    }
    show_parts(&rt, PARTS)
}
