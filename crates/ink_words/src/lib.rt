//! The words of the command line: which command they are, or the first of them that is wrong.
//!
//! A command is its word, and behind it, in any order, the positional words and the options that it has, each option with
//! its value in the next word and at most once. What a command does is not known here.
#![tactic(auto)]

mod arguments;
mod command;
mod number;
mod order;
mod progress;

pub use command::{Command, Operand, Setting};
pub use order::{Order, needs_workers, read_words, recording};
