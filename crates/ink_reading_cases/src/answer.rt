//! What is asked of a source, and what is answered.

use crate::phases::{first_shape, limits_told, parse_told, read_told, tokens_told};
use crate::prints::{pieces_told, print_told, round_told};
use crate::trees::{height_told, tree_told};
use ink_base::Limits;
use std::alloc::{AllocError, Global};

/// What is asked of a source.
#[derive(Clone, Copy)]
pub enum Question {
    /// Its tokens: the kind of each and its bytes, with a `/` before one that begins a line.
    Tokens,
    /// The shape of its first token.
    FirstShape,
    /// Whether its tokens are a module, or which of them is unexpected, counted from 0.
    Parse,
    /// Its tree.
    Tree,
    /// Its height, and where the first node begins that is over each lesser limit.
    Height,
    /// Whether it is read.
    Read,
    /// Whether it is read within its own length, within a byte less, and within the height 1.
    Limits,
    /// Its print.
    Print,
    /// The pieces of its print.
    Pieces,
    /// Its print, and whether that is printed as it is.
    Round,
}

/// What a source is answered. Refused sources are answered the rule that they break.
pub fn answer(alloc: Global, question: Question, source: &[u8]) -> Result<String, AllocError> {
    match question {
        Question::Tokens => tokens_told(alloc, source),
        Question::FirstShape => first_shape(alloc, source),
        Question::Parse => parse_told(alloc, source),
        Question::Tree => tree_told(alloc, source),
        Question::Height => height_told(alloc, source),
        Question::Read => read_told(alloc, source, &Limits::defaults()),
        Question::Limits => limits_told(alloc, source),
        Question::Print => print_told(alloc, source),
        Question::Pieces => pieces_told(alloc, source),
        Question::Round => round_told(alloc, source),
    }
}
