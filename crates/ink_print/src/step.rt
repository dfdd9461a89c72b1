//! The pieces of a print, and the steps in which a node is printed.

use crate::context::Context;
use ink_grammar::Terminal;

/// A mark or a word that the tree doesn't keep, or the end of a line.
#[derive(Clone, Copy, Debug)]
pub enum Sign {
    /// The end of a line.
    Line,
    LeftParen,
    RightParen,
    /// The parenthesis before the names of an import.
    ImportParen,
    LeftBracket,
    RightBracket,
    BlockOpening,
    BlockClosing,
    /// The braces of a pattern of fields.
    PatternOpening,
    PatternClosing,
    /// `${`.
    TextOpening,
    /// The `}` that belongs to a `${`.
    TextClosing,
    Comma,
    Dot,
    Colon,
    Equals,
    Arrow,
    Plus,
    Else,
    Enum,
    For,
    If,
    Or,
}

/// A piece of a print.
#[derive(Clone, Copy)]
pub enum Piece {
    /// A token of the source.
    Token(Terminal),
    /// A token of the source that is a name where it stands, keywords included.
    Name(Terminal),
    Sign(Sign),
}

/// Which child of a node.
#[derive(Clone, Copy)]
pub enum Slot {
    First,
    Second,
    Third,
    Fourth,
    Fifth,
}

/// A step in which a node is printed: a sign, or a child at its context.
#[derive(Clone, Copy)]
pub enum Step {
    Sign(Sign),
    Child(Slot, Context),
}
