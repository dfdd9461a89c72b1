//! The commands, their options and positional words, and what can be a file's name.
ghost use Rattle.std.specs.Prelude.{◌≡◌, ◌↔◌, ℕ, IsTrue, IfSome, IfNone};
ghost use Rattle.ink_base.specs.Limits.{option_word};
ghost use Rattle.ink_base.specs.declared.limits.Limit.{Limit};
ghost use Rattle.ink_words.specs.Commands.{command_word, has_setting, setting_word, IsName};
ghost use Rattle.ink_words.specs.declared.command.Command.{Command};
ghost use Rattle.ink_words.specs.declared.command.Setting.{Setting};

use ink_base::{Limit, Text};

/// What the first word asks for.
#[derive(Clone, Copy)]
pub enum Command {
    /// The module of a file is run.
    Run,
    /// The module of a file is judged.
    Check,
    /// The code of a file's module is listed.
    List,
    /// The module of a file is printed.
    Print,
    /// The module of a file is run again as a journal says.
    Replay,
    /// A module is made for a number.
    Make,
}

/// What an option gives by the word behind it.
#[derive(Clone, Copy)]
pub enum Setting {
    /// The number of a limit.
    Limit(Limit),
    /// How many rounds a run makes at most.
    Rounds,
    /// The file to which a run writes its journal.
    Record,
}

/// A positional word.
#[derive(Clone, Copy)]
pub enum Operand {
    /// The file of the source.
    File,
    /// The file of the journal that is replayed.
    Journal,
    /// The number of the module that is made.
    Number,
}

impl Command {
    /// The command that begins with this word.
    pub(crate) fn of(word: &Text) -> Option<Command>
        ensures some { IfSome result (λ command. word.now ≡ command_word command) }
        ensures none { IfNone result ((command : Command) → word.now ≡ command_word command → ⊥) }
    {
        if word.is(b"run") {
            Some(Command::Run)
        } else if word.is(b"check") {
            Some(Command::Check)
        } else if word.is(b"list") {
            Some(Command::List)
        } else if word.is(b"print") {
            Some(Command::Print)
        } else if word.is(b"replay") {
            Some(Command::Replay)
        } else if word.is(b"make") {
            Some(Command::Make)
        } else {
            None
        }
    }

    /// Whether it has this option.
    pub(crate) fn has(self, setting: Setting) -> bool
        ensures { result ≡ has_setting self setting }
    {
        match (self, setting) {
            (Command::Run, _) => true,
            (Command::Make, _) => false,
            (_, Setting::Limit(Limit::Source | Limit::Height)) => true,
            (Command::Replay, Setting::Limit(Limit::Slice | Limit::Workers)) => false,
            (Command::Replay, Setting::Limit(_)) => true,
            _ => false,
        }
    }
}

/// The limit of which this word is the option.
fn limit_of(word: &Text) -> Option<Limit>
    ensures some { IfSome result (λ limit. word.now ≡ option_word limit) }
    ensures none { IfNone result ((limit : Limit) → word.now ≡ option_word limit → ⊥) }
{
    for limit in Limit::ALL {
        if word.is(limit.option().as_bytes()) {
            return Some(limit);
        }
    }
    None
}

/// What this word gives as an option.
pub(crate) fn setting_of(word: &Text) -> Option<Setting>
    ensures some { IfSome result (λ setting. word.now ≡ setting_word setting) }
    ensures none { IfNone result ((setting : Setting) → word.now ≡ setting_word setting → ⊥) }
{
    if word.is(b"--rounds") {
        return Some(Setting::Rounds);
    }
    if word.is(b"--record") {
        return Some(Setting::Record);
    }
    match limit_of(word) {
        Some(limit) => Some(Setting::Limit(limit)),
        None => None,
    }
}

/// Whether the word can be a positional word or a file's name: it isn't empty and doesn't begin as an option does.
pub(crate) fn is_name(word: &Text) -> bool
    ensures { IsTrue result ↔ IsName word.now }
{
    match word.bytes() {
        [] => false,
        [first, ..] => *first != b'-',
    }
}
