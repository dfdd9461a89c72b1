//! What the words behind a command have given.
ghost use Rattle.std.specs.Prelude.{◌≡◌, option_map};
ghost use Rattle.ink_base.specs.Limits.{IsInRange};
ghost use Rattle.ink_words.specs.Commands.{no_arguments, with_file, with_journal, with_module, with_limit, with_rounds, with_recording, is_given, next_operand, asked_of, asked_by};

use crate::command::{Command, Operand, Setting};
use crate::order::Order;
use ink_base::{Limit, Limits, Text};
use std::marker::Model;

/// What the words up to a place have given.
#[derive(Drop)]
pub(crate) struct Arguments<'a> {
    file: Option<&'a Text>,
    journal: Option<&'a Text>,
    /// The number of the module that is made.
    module_number: Option<u32>,
    /// Of each limit, in their order: whether its option was given.
    given: [bool; 14],
    limits: Limits,
    rounds: Option<u64>,
    /// The file that gets the journal of the run.
    recording: Option<&'a Text>,
}

impl<'a> Model for Arguments<'a> {
    ghost use Rattle.std.specs.Prelude.{option_map};
    ghost use Rattle.ink_words.specs.Commands.{Given};

    ghost Value = { Given };

    ghost view = { λ a. record {
      file = option_map (λ f. f.now) a.file;
      journal = option_map (λ f. f.now) a.journal;
      module_number = a.module_number;
      given = a.given;
      numbers = a.limits;
      rounds = a.rounds;
      recording = option_map (λ f. f.now) a.recording;
    } };
}

impl<'a> Arguments<'a> {
    /// Before the first word: nothing was given, and each limit has its default.
    pub(crate) fn none() -> Arguments<'a>
        ensures { result ≡ no_arguments }
    {
        Arguments {
            file: None,
            journal: None,
            module_number: None,
            given: [false; 14],
            limits: Limits::defaults(),
            rounds: None,
            recording: None,
        }
    }

    /// Whether an option was given.
    pub(crate) fn is_given(&self, setting: Setting) -> bool
        ensures { result ≡ is_given setting self.now }
    {
        match setting {
            Setting::Limit(limit) => self.given[limit.index()],
            Setting::Rounds => self.rounds.is_some(),
            Setting::Record => self.recording.is_some(),
        }
    }

    /// The positional word of the command that wasn't given yet, the first such.
    pub(crate) fn next_operand(&self, command: Command) -> Option<Operand>
        ensures { result ≡ next_operand command self.now }
    {
        match (command, self.file, self.journal, self.module_number) {
            (Command::Make, _, _, None) => Some(Operand::Number),
            (Command::Make, _, _, Some(_)) => None,
            (_, None, _, _) => Some(Operand::File),
            (Command::Replay, Some(_), None, _) => Some(Operand::Journal),
            _ => None,
        }
    }

    pub(crate) fn with_file(mut self, file: &'a Text) -> Arguments<'a>
        ensures { result ≡ with_file file.now self.entry }
    {
        self.file = Some(file);
        self
    }

    pub(crate) fn with_journal(mut self, journal: &'a Text) -> Arguments<'a>
        ensures { result ≡ with_journal journal.now self.entry }
    {
        self.journal = Some(journal);
        self
    }

    pub(crate) fn with_module(mut self, number: u32) -> Arguments<'a>
        ensures { result ≡ with_module number self.entry }
    {
        self.module_number = Some(number);
        self
    }

    pub(crate) fn with_limit(mut self, limit: Limit, number: u64) -> Arguments<'a>
        requires { IsInRange limit number }
        ensures { result ≡ with_limit limit number self.entry }
    {
        self.given[limit.index()] = true;
        self.limits = self.limits.with(limit, number).unwrap();
        self
    }

    pub(crate) fn with_rounds(mut self, rounds: u64) -> Arguments<'a>
        ensures { result ≡ with_rounds rounds self.entry }
    {
        self.rounds = Some(rounds);
        self
    }

    pub(crate) fn with_recording(mut self, file: &'a Text) -> Arguments<'a>
        ensures { result ≡ with_recording file.now self.entry }
    {
        self.recording = Some(file);
        self
    }

    /// The order that a command and these arguments are, where none of its positional words is missing.
    pub(crate) fn order(self, command: Command) -> Option<Order<'a>>
        ensures { option_map asked_by result ≡ asked_of command self.entry }
    {
        let limits = self.limits;
        match (command, self.file, self.journal, self.module_number) {
            (Command::Make, _, _, Some(number)) => Some(Order::Make(number)),
            (Command::Run, Some(file), _, _) => Some(Order::Run {
                file,
                limits,
                rounds: self.rounds,
                journal: self.recording,
            }),
            (Command::Check, Some(file), _, _) => Some(Order::Check { file, limits }),
            (Command::List, Some(file), _, _) => Some(Order::List { file, limits }),
            (Command::Print, Some(file), _, _) => Some(Order::Print { file, limits }),
            (Command::Replay, Some(file), Some(journal), _) => Some(Order::Replay {
                file,
                journal,
                limits,
            }),
            _ => None,
        }
    }
}
