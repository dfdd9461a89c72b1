//! Tokens as the grammar sees them.
ghost use Rattle.std.specs.Prelude.{◌≡◌, IfOk, All, map};
ghost use Rattle.ink_tokens.specs.Lexes.{IsInside};
ghost use Rattle.ink_shapes.specs.Terminals as spec;

use crate::keyword::keyword_of;
use crate::mark::mark_of;
use ink_base::TokenKind;
use ink_grammar::{Keyword, Mark, Shape, Terminal};
use std::alloc::{AllocError, Global};

/// Whether the integer is written in decimal or in hexadecimal digits.
#[tactic(auto, unfolding(crate::specs::Terminals::integer_shape))]
fn integer_shape(text: &[u8]) -> Shape
    ensures { result ≡ spec.integer_shape text.now }
{
    if text.contains(&b'x') {
        Shape::Hexadecimal
    } else {
        Shape::Integer
    }
}

#[tactic(auto, unfolding(crate::specs::Terminals::keyword_shape))]
fn keyword_shape(keyword: Option<Keyword>) -> Shape
    ensures { result ≡ spec.keyword_shape keyword }
{
    match keyword {
        Some(keyword) => Shape::Keyword(keyword),
        None => Shape::Name,
    }
}

#[tactic(auto, unfolding(crate::specs::Terminals::mark_shape))]
fn mark_shape(mark: Option<Mark>) -> Shape
    ensures { result ≡ spec.mark_shape mark }
{
    match mark {
        Some(mark) => Shape::Mark(mark),
        None => Shape::Mark(Mark::Operator),
    }
}

#[tactic(auto, unfolding(crate::specs::Terminals::shape_by))]
fn shape_by(kind: TokenKind, text: &[u8]) -> Shape
    ensures { result ≡ spec.shape_by kind text.now }
{
    match kind {
        TokenKind::Name => Shape::Name,
        TokenKind::Const => Shape::Constant,
        TokenKind::Field => Shape::Field,
        TokenKind::Int => integer_shape(text),
        TokenKind::Symbol => mark_shape(mark_of(text)),
        TokenKind::Keyword => keyword_shape(keyword_of(text)),
        TokenKind::Underscore => Shape::Underscore,
        TokenKind::Quote => Shape::Quote,
        TokenKind::Part => Shape::TextPart,
        TokenKind::Opening => Shape::Opening,
        TokenKind::Closing => Shape::Closing,
    }
}

/// The shape of a token of the source.
///
/// A keyword has its own shape wherever it stands, behind a `.` too.
pub fn shape_of(source: &[u8], token: &ink_base::Token) -> Shape
    requires { IsInside source.now token.now }
    ensures { result ≡ spec.shape_of source.now token.now }
{
    shape_by(token.kind, token.text(source))
}

fn terminal_of(source: &[u8], token: &ink_base::Token) -> Terminal
    requires { IsInside source.now token.now }
    ensures { result ≡ spec.terminal_of source.now token.now }
{
    Terminal {
        shape: shape_of(source, token),
        start: token.start,
        end: token.end,
        new_line: token.new_line,
    }
}

/// The tokens of the source as the grammar sees them, in their order.
pub fn shapes(
    alloc: Global,
    source: &[u8],
    tokens: &[ink_base::Token],
) -> Result<Vec<Terminal>, AllocError>
    requires { All (IsInside source.now) tokens.now }
    ensures { IfOk result (λ them. them.items ≡ map (spec.terminal_of source.now) tokens.now) }
{
    let mut them = Vec::with_capacity(alloc, tokens.len())?;
    for token in tokens {
        them.push(terminal_of(source, token))?;
    }
    Ok(them)
}
