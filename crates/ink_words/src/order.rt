//! The command that the words are.
ghost use Rattle.std.specs.Prelude.{◌≡◌, ◌↔◌, IsTrue, IfOk, IfErr, option_map};
ghost use Rattle.ink_words.specs.Commands.{Asked, asked_by, Behind, IsOrder, AreRight, Leaves, IsWrongWord, AsksWorkers, IsFreeRun, recording_of};

use crate::arguments::Arguments;
use crate::command::Command;
use crate::progress::{Progress, behind_word};
use ink_base::{Limits, Text};

/// A command with its positional words and its options. A limit whose option isn't given has its default.
#[derive(Drop)]
pub enum Order<'a> {
    /// Runs the module that the file holds: in rounds, where `rounds` says how many at most. `journal` names the file
    /// that gets the journal of the run.
    Run {
        file: &'a Text,
        limits: Limits,
        rounds: Option<u64>,
        journal: Option<&'a Text>,
    },
    /// Judges the module that the file holds.
    Check {
        file: &'a Text,
        limits: Limits,
    },
    /// Lists the code of the module that the file holds.
    List {
        file: &'a Text,
        limits: Limits,
    },
    /// Prints the module that the file holds.
    Print {
        file: &'a Text,
        limits: Limits,
    },
    /// Runs the module that the file holds as the file `journal` says.
    Replay {
        file: &'a Text,
        journal: &'a Text,
        limits: Limits,
    },
    /// Makes the module for a number from 1 to 5000.
    Make(u32),
}

/// A word that no command has at its place, or that is missing there.
#[derive(Clone, Copy)]
struct WrongWord {
    /// How many right words stand before it.
    right: usize,
}

/// Reads what stands behind a command.
fn behind_command<'a>(command: Command, words: &'a [Text]) -> Result<Order<'a>, WrongWord>
    ensures fits { IfOk result (λ order. Behind command words.now (asked_by order)) }
    ensures only { IfOk result (λ order. (other : Asked) → Behind command words.now other → other ≡ asked_by order) }
    ensures wrong { IfErr result (λ wrong. Leaves (AreRight command) words.now wrong.right) }
{
    let mut progress = Progress {
        arguments: Arguments::none(),
        awaited: None,
    };
    for (right, word) in words.iter().enumerate() {
        let Some(next) = behind_word(command, progress, word) else {
            return Err(WrongWord { right });
        };
        progress = next;
    }
    match progress.awaited {
        Some(_setting) => Err(WrongWord { right: words.len() }),
        None => match progress.arguments.order(command) {
            Some(order) => Ok(order),
            None => Err(WrongWord { right: words.len() }),
        },
    }
}

/// Reads the words of a command line, and gives the one command that they are.
///
/// An error is the number of the first word with which no command begins, counted from 1. Where words are missing, it is
/// one more than their number. No memory is taken.
pub fn read_words(words: &[Text]) -> Result<Order<'_>, u64>
    ensures order { IfOk result (λ order. IsOrder (asked_by order) words.now) }
    ensures only { IfOk result (λ order. (other : Asked) → IsOrder other words.now → other ≡ asked_by order) }
    ensures wrong { IfErr result (λ number. IsWrongWord words.now number) }
{
    let Some((first, words)) = words.split_first() else {
        return Err(1);
    };
    let Some(command) = Command::of(first) else {
        return Err(1);
    };
    match behind_command(command, words) {
        Err(wrong) => Err(wrong.right as u64 + 2),
        Ok(order) => Ok(order),
    }
}

/// Whether an order is a run that isn't made in rounds.
fn is_free_run(order: Order<'_>) -> bool
    ensures { IsTrue result ↔ IsFreeRun (asked_by order.entry) }
{
    match order {
        Order::Run { rounds: None, .. } => true,
        _ => false,
    }
}

/// The file that gets the journal of an order.
fn recorded(order: Order<'_>) -> Option<&Text>
    ensures { option_map (λ f. f.now) result ≡ recording_of (asked_by order.entry) }
{
    match order {
        Order::Run {
            journal: Some(file),
            ..
        } => Some(file),
        _ => None,
    }
}

/// The file that gets the journal of what the words ask for: that of `--record`, where they are a run and have it. No
/// memory is taken.
pub fn recording(words: &[Text]) -> Option<&Text>
    ensures { (asked : Asked) → IsOrder asked words.now → option_map (λ f. f.now) result ≡ recording_of asked }
{
    match read_words(words) {
        Err(_number) => None,
        Ok(order) => recorded(order),
    }
}

/// Whether the words are a run on several workers: the command `run` without `--rounds`. No memory is taken.
pub fn needs_workers(words: &[Text]) -> bool
    ensures { IsTrue result ↔ AsksWorkers words.now }
{
    match read_words(words) {
        Err(_number) => false,
        Ok(order) => is_free_run(order),
    }
}
