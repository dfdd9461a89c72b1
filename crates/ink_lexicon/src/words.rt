//! The words of a module by their numbers, and what a token says by its spelling.
ghost use Rattle.std.specs.Prelude.{◌≡◌, codes, IfOk, nat_eq, get_or};
ghost use Rattle.std.specs.List.{starts_with};
ghost use Rattle.std.specs.Str.{bytes_eq};
ghost use Rattle.ink_lexicon.specs.Lexicon as spec;

use crate::surface::Surface;
use ink_base::BorrowKind;
use ink_forms::{Identifier, Literal, Made, Operator};
use ink_grammar::{Keyword, Shape, Terminal};
use ink_tables::{NameId, TextId, integer_value, unescaped_part};
use std::alloc::AllocError;

/// The number of what is in no table. No table has so many.
pub const NO_WORD: u32 = 0xffff_ffff;

/// The bytes of a token.
pub(crate) fn spelling<'a>(source: &'a [u8], token: Terminal) -> &'a [u8]
    ensures { result.now ≡ spec.spelling source.now token }
{
    if token.start <= token.end && token.end as usize <= source.len() {
        &source[token.start as usize..token.end as usize]
    } else {
        &[]
    }
}

/// The bytes behind the first.
fn behind_first(bytes: &[u8]) -> &[u8]
    ensures { result.now ≡ spec.behind_first bytes.now }
{
    match bytes.split_first() {
        Some((_, rest)) => rest,
        None => &[],
    }
}

/// The spelling of the name that a token is.
#[tactic(auto, unfolding(crate::specs::Lexicon::name_spelling))]
pub(crate) fn name_spelling<'a>(source: &'a [u8], token: Terminal) -> &'a [u8]
    ensures { result.now ≡ spec.name_spelling source.now token.shape token }
{
    match token.shape {
        Shape::Field => behind_first(spelling(source, token)),
        _ => spelling(source, token),
    }
}

/// The number of a name.
pub fn name(surface: &Surface, token: Terminal) -> NameId
    ensures { result ≡ spec.name surface.now token }
{
    match surface
        .words
        .names
        .find(name_spelling(surface.source, token))
    {
        Some(number) => number,
        None => NO_WORD,
    }
}

/// A name, and where it is written.
pub fn identifier(surface: &Surface, token: Terminal) -> Identifier
    ensures { result ≡ spec.identifier surface.now token }
{
    Identifier {
        name: name(surface, token),
        place: token.start,
    }
}

/// The number of a written integer.
pub fn integer(surface: &Surface, token: Terminal) -> u32
    ensures { result ≡ spec.integer surface.now token }
{
    let value = integer_value(spelling(surface.source, token));
    match surface.words.integers.find(value) {
        Some(number) => number,
        None => NO_WORD,
    }
}

/// The number of a text.
fn text_number(surface: &Surface, bytes: &[u8]) -> TextId
    ensures { result ≡ spec.text_number surface.now bytes.now }
{
    match surface.words.texts.find(bytes) {
        Some(number) => number,
        None => NO_WORD,
    }
}

/// A written integer.
pub fn integer_literal(surface: &Surface, token: Terminal) -> Literal
    ensures { result ≡ spec.integer_literal surface.now token }
{
    Literal::Int(integer(surface, token))
}

/// The part of a text that a token is.
pub fn text_literal(surface: &Surface, token: Terminal) -> Result<Literal, AllocError>
    ensures { IfOk result (λ literal. literal ≡ spec.text_literal surface.now token) }
{
    let text = unescaped_part(surface.alloc, spelling(surface.source, token))?;
    Ok(Literal::Text(text_number(surface, text.bytes())))
}

/// The text without bytes.
pub fn empty_literal(surface: &Surface) -> Literal
    ensures { result ≡ spec.empty_literal surface.now }
{
    Literal::Text(text_number(surface, &[]))
}

/// Whether the two are the same bytes.
fn is(bytes: &[u8], text: &[u8]) -> bool
    ensures { result ≡ bytes_eq bytes.now text.now }
{
    bytes == text
}

/// What a name with a capital letter makes.
#[tactic(auto, unfolding(crate::specs::Lexicon::made_of))]
pub fn made_of(surface: &Surface, token: Terminal) -> Made
    ensures { result ≡ spec.made_of surface.now token }
{
    let spelling = spelling(surface.source, token);
    if is(spelling, b"Some") {
        Made::Some
    } else if is(spelling, b"None") {
        Made::None
    } else if is(spelling, b"Ok") {
        Made::Ok
    } else if is(spelling, b"Error") {
        Made::Error
    } else {
        Made::Named(name(surface, token))
    }
}

/// Whether a name is `panic`.
pub fn is_panic(surface: &Surface, token: Terminal) -> bool
    ensures { result ≡ bytes_eq (spec.spelling surface.now.source.now token) (codes "panic") }
{
    is(spelling(surface.source, token), b"panic")
}

/// The number of a spelling.
fn number_of(surface: &Surface, spelling: &[u8]) -> NameId
    ensures { result ≡ spec.number_of surface.now spelling.now }
{
    match surface.words.names.find(spelling) {
        Some(number) => number,
        None => NO_WORD,
    }
}

/// The name of the variable that `try` adds, which no source can give to one.
pub fn try_name(surface: &Surface) -> NameId
    ensures { result ≡ spec.number_of surface.now (codes "try") }
{
    number_of(surface, b"try")
}

/// The name of the method that embedded expressions are asked for.
pub fn to_string_name(surface: &Surface) -> NameId
    ensures { result ≡ spec.number_of surface.now (codes "to_string") }
{
    number_of(surface, b"to_string")
}

/// The kind of a borrow, by its word.
#[tactic(auto, unfolding(crate::specs::Lexicon::borrow_kind))]
pub fn borrow_kind(shape: Shape) -> BorrowKind
    ensures { result ≡ spec.borrow_kind shape }
{
    match shape {
        Shape::Keyword(Keyword::Mut) => BorrowKind::Mut,
        _ => BorrowKind::Ref,
    }
}

/// Whether bytes begin with these.
fn begins(bytes: &[u8], text: &[u8]) -> bool
    ensures { result ≡ starts_with nat_eq bytes.now text.now }
{
    bytes.starts_with(text)
}

/// The operator of two characters that bytes begin with.
#[tactic(auto, unfolding(crate::specs::Lexicon::long_operator))]
fn long_operator(bytes: &[u8]) -> Option<Operator>
    ensures { result ≡ spec.long_operator bytes.now }
{
    if begins(bytes, b"==") {
        Some(Operator::Equal)
    } else if begins(bytes, b"!=") {
        Some(Operator::NotEqual)
    } else if begins(bytes, b"<=") {
        Some(Operator::LessOrEqual)
    } else if begins(bytes, b">=") {
        Some(Operator::GreaterOrEqual)
    } else if begins(bytes, b"<<") {
        Some(Operator::ShiftLeft)
    } else if begins(bytes, b">>") {
        Some(Operator::ShiftRight)
    } else {
        None
    }
}

/// The operator of one character.
#[tactic(auto, unfolding(crate::specs::Lexicon::short_operator))]
fn short_operator(byte: u8) -> Operator
    ensures { result ≡ spec.short_operator byte }
{
    match byte {
        b'-' => Operator::Subtract,
        b'*' => Operator::Multiply,
        b'/' => Operator::Divide,
        b'%' => Operator::Remainder,
        b'<' => Operator::Less,
        b'>' => Operator::Greater,
        b'&' => Operator::And,
        b'|' => Operator::Or,
        b'^' => Operator::ExclusiveOr,
        _ => Operator::Add,
    }
}

/// The first byte, or 0.
fn first_byte(bytes: &[u8]) -> u8
    ensures { result ≡ get_or bytes.now 0 0 }
{
    match bytes.first() {
        Some(byte) => *byte,
        None => 0,
    }
}

/// The operator that a token begins with: itself, or what stands before its `=`.
#[tactic(auto, unfolding(crate::specs::Lexicon::operator_of))]
pub fn operator_of(surface: &Surface, token: Terminal) -> Operator
    ensures { result ≡ spec.operator_of surface.now token }
{
    let spelling = spelling(surface.source, token);
    match long_operator(spelling) {
        Some(operator) => operator,
        None => short_operator(first_byte(spelling)),
    }
}
