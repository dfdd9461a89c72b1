//! How a piece stands beside others, which is all that its blanks depend on.

ghost use Rattle.std.specs.Prelude.{◌≡◌, ◌<◌};
ghost use Rattle.ink_print.specs.Layout as spec;

use crate::step::{Piece, Sign};
use ink_grammar::{Mark, Shape};

/// How a piece stands beside others.
#[derive(Clone, Copy)]
pub enum Class {
    /// The end of a line. A print begins as behind one.
    Line,
    /// A name, a number or a part of a text.
    Word,
    Keyword,
    /// An operator, `=`, `:=` and `->`.
    Operator,
    /// A comma or a colon.
    Separator,
    Dot,
    /// `(`, `[` and `${`.
    Opening,
    /// What closes one of those.
    Closing,
    /// The parenthesis before the names of an import.
    ImportOpening,
    BlockOpening,
    BlockClosing,
    PatternOpening,
    PatternClosing,
}

/// The class of a token.
fn class_of_shape(shape: Shape) -> Class
    ensures { result ≡ spec.class_of_shape shape }
{
    match shape {
        Shape::Keyword(_) => Class::Keyword,
        Shape::Mark(Mark::Swap) => Class::Operator,
        Shape::Mark(Mark::Equals) => Class::Operator,
        Shape::Mark(Mark::Arrow) => Class::Operator,
        Shape::Mark(Mark::Plus) => Class::Operator,
        Shape::Mark(Mark::Operator) => Class::Operator,
        Shape::Mark(Mark::OperatorEquals) => Class::Operator,
        _ => Class::Word,
    }
}

/// The class of a sign.
fn class_of_sign(sign: Sign) -> Class
    ensures { result ≡ spec.class_of_sign sign }
{
    match sign {
        Sign::Line => Class::Line,
        Sign::LeftParen => Class::Opening,
        Sign::RightParen => Class::Closing,
        Sign::ImportParen => Class::ImportOpening,
        Sign::LeftBracket => Class::Opening,
        Sign::RightBracket => Class::Closing,
        Sign::BlockOpening => Class::BlockOpening,
        Sign::BlockClosing => Class::BlockClosing,
        Sign::PatternOpening => Class::PatternOpening,
        Sign::PatternClosing => Class::PatternClosing,
        Sign::TextOpening => Class::Opening,
        Sign::TextClosing => Class::Closing,
        Sign::Comma => Class::Separator,
        Sign::Dot => Class::Dot,
        Sign::Colon => Class::Separator,
        Sign::Equals => Class::Operator,
        Sign::Arrow => Class::Operator,
        Sign::Plus => Class::Operator,
        Sign::Else => Class::Keyword,
        Sign::Enum => Class::Keyword,
        Sign::For => Class::Keyword,
        Sign::If => Class::Keyword,
        Sign::Or => Class::Keyword,
    }
}

/// The class of a piece.
pub fn class_of(piece: Piece) -> Class
    ensures { result ≡ spec.class_of piece }
{
    match piece {
        Piece::Token(token) => class_of_shape(token.shape),
        Piece::Name(_) => Class::Word,
        Piece::Sign(sign) => class_of_sign(sign),
    }
}

/// Whether no blank may stand behind it.
fn is_tight_behind(class: Class) -> bool
    ensures { result ≡ spec.is_tight_behind class }
{
    match class {
        Class::Opening => true,
        Class::ImportOpening => true,
        Class::Dot => true,
        _ => false,
    }
}

/// Whether no blank may stand before it.
fn is_tight_before(class: Class) -> bool
    ensures { result ≡ spec.is_tight_before class }
{
    match class {
        Class::Closing => true,
        Class::Separator => true,
        Class::Dot => true,
        _ => false,
    }
}

/// Whether it asks for a blank behind it.
fn asks_behind(class: Class) -> bool
    ensures { result ≡ spec.asks_behind class }
{
    match class {
        Class::Keyword => true,
        Class::Operator => true,
        Class::Separator => true,
        Class::BlockOpening => true,
        Class::PatternOpening => true,
        _ => false,
    }
}

/// Whether it asks for a blank before it.
fn asks_before(class: Class) -> bool
    ensures { result ≡ spec.asks_before class }
{
    match class {
        Class::Keyword => true,
        Class::Operator => true,
        Class::BlockOpening => true,
        Class::PatternClosing => true,
        Class::ImportOpening => true,
        _ => false,
    }
}

/// Whether a blank stands between two neighbours on a line.
pub fn is_spaced(before: Class, here: Class) -> bool
    ensures { result ≡ spec.is_spaced before here }
{
    let tight = is_tight_behind(before) || is_tight_before(here);
    let asked = asks_behind(before) || asks_before(here);
    !tight && asked
}

/// The blocks that are open where a piece stands. A closing brace stands outside of its block.
pub fn depth_at(class: Class, depth: usize) -> usize
    ensures { result ≡ spec.depth_at class depth }
{
    match class {
        Class::BlockClosing => depth.saturating_sub(1),
        _ => depth,
    }
}

/// The blocks that are open behind a piece.
pub fn depth_behind(class: Class, depth: usize) -> usize
    requires { depth < usize.MAX }
    ensures { result ≡ spec.depth_behind class depth }
{
    match class {
        Class::BlockOpening => depth + 1,
        _ => depth,
    }
}
