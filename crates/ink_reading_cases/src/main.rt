//! Worked cases of the reading and of the print: sources, and what each of them comes to.
//!
//! The sources stand in files below data/, and what they have to come to in the file `stdout`. Nothing is claimed here:
//! each answer is printed beside its source, for a comparison.
#![tactic(auto)]

mod answer;
mod phases;
mod prints;
mod sources;
mod trees;

use crate::answer::{Question, answer};
use crate::sources::{nested_source, source_of};
use ink_round::print_reads_back;
use ink_sheet::Sheet;
use ink_tokens::longest_match;
use std::rt::Files;
use std::{fs, io};

/// The files in which each line is a source, and what is asked of it.
static LINES: [(&str, Question); 15] = [
    ("words", Question::Tokens),
    ("integers", Question::Tokens),
    ("signs", Question::Tokens),
    ("symbols", Question::Tokens),
    ("gaps", Question::Tokens),
    ("texts", Question::Tokens),
    ("nested_texts", Question::Tokens),
    ("faults_in_texts", Question::Tokens),
    ("shapes", Question::FirstShape),
    ("statements", Question::Parse),
    ("trees", Question::Tree),
    ("heights", Question::Height),
    ("refusals", Question::Read),
    ("limits", Question::Limits),
    ("pieces", Question::Pieces),
];

/// The files in which a source stands below each line that begins with `----` and names it, and what is asked of it.
static BLOCKS: [(&str, Question); 4] = [
    ("productions", Question::Parse),
    ("declarations", Question::Read),
    ("prints", Question::Print),
    ("rounds", Question::Round),
];

/// How deep the brackets nest in the source that stands in no file.
const DEPTH: usize = 100_000;

/// The line above what is told of a file.
fn name_file(sheet: &mut Sheet, file: &str) {
    sheet.text("== ");
    sheet.text(file);
    sheet.text("\n");
}

/// Tells of each line of a file what it comes to.
fn tell_lines<R: Files + AllocGlobal>(
    rt: &R,
    sheet: &mut Sheet,
    file: &str,
    question: Question,
) -> io::Result<()> {
    let text = fs::read_to_string(rt, file)?;
    name_file(sheet, file);
    for line in text.lines() {
        let source = source_of(rt.alloc(), line)?;
        sheet.text(line);
        sheet.text("  =>  ");
        sheet.made(answer(rt.alloc(), question, &source));
        sheet.text("\n");
    }
    Ok(())
}

/// Tells of each source that has a name in a file what it comes to.
fn tell_blocks<R: Files + AllocGlobal>(
    rt: &R,
    sheet: &mut Sheet,
    file: &str,
    question: Question,
) -> io::Result<()> {
    let text = fs::read_to_string(rt, file)?;
    name_file(sheet, file);
    for block in text.split("---- ") {
        if let Some((name, source)) = block.split_once("\n") {
            sheet.text("---- ");
            sheet.text(name);
            sheet.text("\n");
            sheet.made(answer(rt.alloc(), question, source.as_bytes()));
            sheet.text("\n");
        }
    }
    Ok(())
}

fn main(rt: HostRuntime) -> io::Result<()> {
    // Laws, which do nothing when they run.
    longest_match();
    print_reads_back();
    let mut sheet = Sheet::new(rt.alloc());
    for (file, question) in LINES {
        tell_lines(&rt, &mut sheet, file, question)?;
    }
    for (file, question) in BLOCKS {
        tell_blocks(&rt, &mut sheet, file, question)?;
    }
    let nested = nested_source(rt.alloc(), DEPTH)?;
    let told = answer(rt.alloc(), Question::Parse, &nested)?;
    println!(rt;
        "{}== {DEPTH} brackets in one another\n{told}",
        sheet.whole()?
    )
}
