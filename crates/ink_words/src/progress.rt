//! How each word behind a command is read.
ghost use Rattle.std.specs.Prelude.{◌≡◌, IfSome, IfNone, Some, None};
ghost use Rattle.ink_words.specs.Commands.{Given, next_operand, Takes, Sets, GoesOn, GoesNowhere};

use crate::arguments::Arguments;
use crate::command::{Command, Operand, Setting, is_name, setting_of};
use crate::number::number_of;
use ink_base::Text;

/// The greatest number for which a module is made.
const GREATEST_MODULE: u64 = 5_000;

/// The greatest number of rounds that a run can be given.
const GREATEST_ROUNDS: u64 = 1 << 62;

/// What was read up to a word: the arguments, and the option whose value comes next.
#[derive(Drop)]
pub(crate) struct Progress<'a> {
    pub(crate) arguments: Arguments<'a>,
    pub(crate) awaited: Option<Setting>,
}

/// Reads a positional word.
fn behind_operand<'a>(
    command: Command,
    arguments: Arguments<'a>,
    word: &'a Text,
) -> Option<Arguments<'a>>
    ensures some { IfSome result (λ behind. Takes (next_operand command arguments.entry) word.now arguments.entry behind) }
    ensures none { IfNone result ((behind : Given) → Takes (next_operand command arguments.entry) word.now arguments.entry behind → ⊥) }
{
    match arguments.next_operand(command)? {
        Operand::File => Some(arguments.with_file(word)),
        Operand::Journal => Some(arguments.with_journal(word)),
        Operand::Number => {
            let number = number_of(word, GREATEST_MODULE)?;
            Some(arguments.with_module(number as u32))
        }
    }
}

/// Reads the value of an option.
fn behind_value<'a>(
    setting: Setting,
    arguments: Arguments<'a>,
    word: &'a Text,
) -> Option<Arguments<'a>>
    ensures some { IfSome result (λ behind. Sets setting word.now arguments.entry behind) }
    ensures none { IfNone result ((behind : Given) → Sets setting word.now arguments.entry behind → ⊥) }
{
    match setting {
        Setting::Limit(limit) => {
            let number = number_of(word, limit.greatest())?;
            Some(arguments.with_limit(limit, number))
        }
        Setting::Rounds => {
            let rounds = number_of(word, GREATEST_ROUNDS)?;
            Some(arguments.with_rounds(rounds))
        }
        Setting::Record if is_name(word) => Some(arguments.with_recording(word)),
        Setting::Record => None,
    }
}

/// Reads a positional word, or an option.
fn behind_argument<'a>(
    command: Command,
    arguments: Arguments<'a>,
    word: &'a Text,
) -> Option<Progress<'a>>
    ensures some { IfSome result (λ next. GoesOn command None arguments.entry word.now next.awaited next.arguments) }
    ensures none { IfNone result (GoesNowhere command None arguments.entry word.now) }
{
    if is_name(word) {
        let arguments = behind_operand(command, arguments, word)?;
        return Some(Progress {
            arguments,
            awaited: None,
        });
    }
    let setting = setting_of(word)?;
    if !command.has(setting) || arguments.is_given(setting) {
        return None;
    }
    Some(Progress {
        arguments,
        awaited: Some(setting),
    })
}

/// Reads one word behind a command, if it can stand there.
pub(crate) fn behind_word<'a>(
    command: Command,
    before: Progress<'a>,
    word: &'a Text,
) -> Option<Progress<'a>>
    ensures some { IfSome result (λ next. GoesOn command before.entry.awaited before.entry.arguments word.now next.awaited next.arguments) }
    ensures none { IfNone result (GoesNowhere command before.entry.awaited before.entry.arguments word.now) }
{
    match before.awaited {
        Some(setting) => {
            let arguments = behind_value(setting, before.arguments, word)?;
            Some(Progress {
                arguments,
                awaited: None,
            })
        }
        None => behind_argument(command, before.arguments, word),
    }
}
