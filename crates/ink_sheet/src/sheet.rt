//! The sheet.

use std::alloc::{AllocError, Global};
use std::fmt::{Debug, Display};
use std::str;

/// What was written so far.
#[derive(Drop)]
pub struct Sheet {
    alloc: Global,
    text: String,
    /// Whether there was memory for all of it.
    is_whole: bool,
}

impl Sheet {
    /// Nothing is written yet.
    pub fn new(alloc: Global) -> Sheet {
        Sheet {
            alloc,
            text: String::new(alloc),
            is_whole: true,
        }
    }

    /// Writes a text.
    pub fn text(&mut self, text: &str) {
        if self.text.push_str(text).is_err() {
            self.is_whole = false;
        }
    }

    /// Writes bytes that are UTF-8, and of others what is told in their place.
    pub fn bytes(&mut self, bytes: &[u8], otherwise: &str) {
        self.text(str::from_utf8(bytes).unwrap_or(otherwise));
    }

    /// Writes the same without the blanks at its ends. Nothing where it isn't UTF-8.
    pub fn trimmed(&mut self, bytes: &[u8]) {
        self.text(str::from_utf8(bytes).unwrap_or("").trim());
    }

    /// Writes a text that was to be made before.
    pub fn made(&mut self, text: Result<String, AllocError>) {
        match text {
            Ok(text) => self.text(&text),
            Err(AllocError) => self.is_whole = false,
        }
    }

    /// Writes a value as `{}` does.
    pub fn plain<T: Display>(&mut self, value: &T) {
        self.made(format!(in self.alloc; "{value}"));
    }

    /// Writes a value as `{:?}` does.
    pub fn shown<T: Debug>(&mut self, value: &T) {
        self.made(format!(in self.alloc; "{value:?}"));
    }

    /// Writes a number.
    pub fn number(&mut self, number: u64) {
        self.plain(&number);
    }

    /// Writes a number with its sign.
    pub fn signed(&mut self, number: i64) {
        self.plain(&number);
    }

    /// Writes `true` or `false`.
    pub fn truth(&mut self, truth: bool) {
        self.text(if truth { "true" } else { "false" });
    }

    /// Writes words and a number behind them.
    pub fn numbered(&mut self, words: &str, number: u64) {
        self.text(words);
        self.number(number);
    }

    /// Writes words, a number, and words behind it.
    pub fn around(&mut self, before: &str, number: u64, behind: &str) {
        self.numbered(before, number);
        self.text(behind);
    }

    /// All that was written.
    ///
    /// # Errors
    ///
    /// `AllocError` where there was no memory for a part of it.
    pub fn whole(self) -> Result<String, AllocError> {
        if self.is_whole {
            Ok(self.text)
        } else {
            Err(AllocError)
        }
    }
}
