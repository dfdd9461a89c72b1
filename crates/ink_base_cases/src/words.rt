//! Command lines, and the commands that they are.

use ink_base::{Limit, Limits, Text};
use ink_sheet::{Sheet, words_from};
use ink_words::{Order, read_words, recording};
use std::alloc::{AllocError, Global};

/// Each line of words with its command, or with the first word that is wrong.
pub fn tell(alloc: Global, sheet: &mut Sheet, lines: &str) -> Result<(), AllocError> {
    sheet.text("COMMAND LINES\n");
    for line in lines.lines() {
        sheet.text(line);
        let words = words(alloc, line)?;
        match read_words(&words) {
            Ok(order) => told_order(sheet, order, recording(&words)),
            Err(number) => sheet.around(": word ", number, " is wrong\n"),
        }
    }
    sheet.text("\n");
    Ok(())
}

/// The words of a line. `''` stands for the empty word, and `FF` for the byte of that number.
fn words(alloc: Global, line: &str) -> Result<Vec<Text>, AllocError> {
    let mut words = Vec::new(alloc);
    for word in words_from(alloc, line, 0)? {
        let bytes: &[u8] = match word {
            "''" => b"",
            "FF" => b"\xFF",
            _ => word.as_bytes(),
        };
        words.push(Text::of(alloc, bytes)?)?;
    }
    Ok(words)
}

/// What a command is, with the file that gets the journal of a run.
fn told_order(sheet: &mut Sheet, order: Order<'_>, recording: Option<&Text>) {
    match order {
        Order::Run {
            file,
            limits,
            rounds,
            ..
        } => told_run(sheet, file, &limits, rounds, recording),
        Order::Check { file, limits } => target(sheet, ": checks ", file, &limits),
        Order::List { file, limits } => target(sheet, ": lists ", file, &limits),
        Order::Print { file, limits } => target(sheet, ": prints ", file, &limits),
        Order::Replay {
            file,
            journal,
            limits,
        } => {
            sheet.text(": by ");
            sheet.bytes(journal.bytes(), "not UTF-8");
            target(sheet, " replays ", file, &limits);
        }
        Order::Make(number) => sheet.around(": makes ", number as u64, "\n"),
    }
}

/// A run, with its rounds and the file that gets its journal, where they are given.
fn told_run(
    sheet: &mut Sheet,
    file: &Text,
    limits: &Limits,
    rounds: Option<u64>,
    journal: Option<&Text>,
) {
    if let Some(rounds) = rounds {
        sheet.numbered(": rounds ", rounds);
    }
    if let Some(journal) = journal {
        sheet.text(": records ");
        sheet.bytes(journal.bytes(), "not UTF-8");
    }
    target(sheet, ": runs ", file, limits);
}

/// What is done to which file, and within which limits: the bytes of a source, its height, the events, the steps of a slice
/// and the workers.
fn target(sheet: &mut Sheet, deed: &str, file: &Text, limits: &Limits) {
    sheet.text(deed);
    sheet.bytes(file.bytes(), "not UTF-8");
    sheet.numbered(", ", limits.get(Limit::Source));
    sheet.numbered(" ", limits.get(Limit::Height));
    sheet.numbered(" ", limits.get(Limit::Events));
    sheet.numbered(" ", limits.get(Limit::Slice));
    sheet.around(" ", limits.get(Limit::Workers), "\n");
}
