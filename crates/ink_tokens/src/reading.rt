//! What can stand at a place of a source, as plain data.

use ink_base::TokenKind;

/// Where a place is, by what is open there.
#[derive(Clone, Copy)]
pub enum Level {
    /// In no text.
    Outside,
    /// In a text with this quote.
    Text(u8),
    /// Directly in a `${` of a text.
    Embedded,
    /// In a `{` inside a `${`.
    Braces,
}

/// What stands before a place, blanks and comments aside.
#[derive(Clone, Copy)]
pub enum Before {
    /// No token.
    Start,
    /// A line feed, behind the last token.
    LineFeed,
    /// A token behind which a `-` subtracts.
    Operand,
    /// Another token.
    Other,
}

/// What a token does to the level.
#[derive(Clone, Copy)]
pub enum Change {
    Stay,
    Enter(Level),
    Leave,
}

/// What is spelled at a place as a token: its kind, and how many bytes it takes. One that takes none doesn't stand there.
#[derive(Clone, Copy)]
pub struct Match {
    pub kind: TokenKind,
    pub length: usize,
}

/// A token at a place.
#[derive(Clone, Copy)]
pub struct Read {
    pub kind: TokenKind,
    pub length: usize,
    pub change: Change,
    pub before: Before,
}

/// What stands at a place.
#[derive(Clone, Copy)]
pub enum Found {
    /// A blank or a comment of so many bytes, and whether it is a line feed.
    Gap(usize, bool),
    Token(Read),
    /// Nothing that may stand there.
    Nothing,
}
