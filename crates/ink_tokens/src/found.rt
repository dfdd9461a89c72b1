//! What stands at a place of a source: the longest match, or what separates tokens.
ghost use Rattle.std.specs.Prelude.{◌≡◌, ◌<◌, ◌≤◌, ℕ, length, IfSome};
ghost use Rattle.std.specs.Option.{ForSome};
ghost use Rattle.ink_tokens.specs.Found.{longer, name_match, match_at, ends_operand, before_behind, brace_at, mark_at, may_be_signed, match_found, token_found, code_found, text_found, found_at, IsWithin};

use crate::bytes::{byte_at, is_quote};
use crate::gap::separator_length;
use crate::integer::integer_length;
use crate::part::{begins_opening, part_length};
use crate::reading::{Before, Change, Found, Level, Match, Read};
use crate::words::{
    const_length, ends_bracket, field_length, is_value_word, name_length, symbol_length, word_kind,
};
use ink_base::TokenKind;

/// A `{` inside a `${`.
const OPENED_BRACE: Read = Read {
    kind: TokenKind::Symbol,
    length: 1,
    change: Change::Enter(Level::Braces),
    before: Before::Other,
};

/// The `}` that is paired with it.
const CLOSED_BRACE: Read = Read {
    kind: TokenKind::Symbol,
    length: 1,
    change: Change::Leave,
    before: Before::Operand,
};

/// The `}` that belongs to the `${`.
const CLOSING: Read = Read {
    kind: TokenKind::Closing,
    length: 1,
    change: Change::Leave,
    before: Before::Other,
};

/// The quote that closes a text.
const CLOSING_QUOTE: Read = Read {
    kind: TokenKind::Quote,
    length: 1,
    change: Change::Leave,
    before: Before::Operand,
};

/// A `${`.
const OPENING: Read = Read {
    kind: TokenKind::Opening,
    length: 2,
    change: Change::Enter(Level::Embedded),
    before: Before::Other,
};

/// The longer of two matches.
#[tactic(auto, unfolding(crate::specs::Found::longer))]
fn longer(one: Match, other: Match) -> Match
    ensures value { result ≡ longer one other }
    ensures inside { (n : ℕ) → one.length ≤ n → other.length ≤ n → result.length ≤ n }
{
    if one.length < other.length {
        other
    } else {
        one
    }
}

/// The word at the front that begins as a name does.
#[tactic(auto, unfolding(crate::specs::Found::name_match))]
fn name_match(bytes: &[u8]) -> Match
    ensures value { result ≡ name_match bytes.now }
    ensures inside { result.length ≤ length bytes.now }
{
    let length = name_length(bytes);
    Match {
        kind: word_kind(&bytes[..length]),
        length,
    }
}

/// The longest match at the front, quotes aside.
#[tactic(auto, unfolding(crate::specs::Found::match_at))]
fn match_at(bytes: &[u8], may_be_signed: bool) -> Match
    ensures value { result ≡ match_at may_be_signed bytes.now }
    ensures inside { result.length ≤ length bytes.now }
{
    let capital = Match {
        kind: TokenKind::Const,
        length: const_length(bytes),
    };
    let field = Match {
        kind: TokenKind::Field,
        length: field_length(bytes),
    };
    let integer = Match {
        kind: TokenKind::Int,
        length: integer_length(bytes, may_be_signed),
    };
    let symbol = Match {
        kind: TokenKind::Symbol,
        length: symbol_length(bytes),
    };
    let word = longer(name_match(bytes), longer(capital, field));
    longer(word, longer(integer, symbol))
}

/// Whether a `-` behind the token is a symbol by itself.
#[tactic(auto, unfolding(crate::specs::Found::ends_operand))]
fn ends_operand(kind: TokenKind, text: &[u8]) -> bool
    ensures { result ≡ ends_operand kind text.now }
{
    match kind {
        TokenKind::Name | TokenKind::Const | TokenKind::Field | TokenKind::Int => true,
        TokenKind::Symbol => ends_bracket(byte_at(text, 0)),
        TokenKind::Keyword => is_value_word(text),
        TokenKind::Underscore
        | TokenKind::Quote
        | TokenKind::Part
        | TokenKind::Opening
        | TokenKind::Closing => false,
    }
}

/// What stands before the place behind a token.
#[tactic(auto, unfolding(crate::specs::Found::before_behind))]
fn before_behind(kind: TokenKind, text: &[u8]) -> Before
    ensures { result ≡ before_behind kind text.now }
{
    if ends_operand(kind, text) {
        Before::Operand
    } else {
        Before::Other
    }
}

/// The brace that begins with the byte, where braces are paired.
#[tactic(auto, unfolding(crate::specs::Found::brace_at))]
fn brace_at(level: Level, first: u8) -> Option<Read>
    ensures value { result ≡ brace_at level first }
    ensures single { IfSome result (λ read. (read.length ≡ 1) × (0 < first)) }
{
    match (level, first) {
        (Level::Embedded | Level::Braces, b'{') => Some(OPENED_BRACE),
        (Level::Embedded, b'}') => Some(CLOSING),
        (Level::Braces, b'}') => Some(CLOSED_BRACE),
        _ => None,
    }
}

/// The quote that opens a text, or the brace, that begins with the byte.
#[tactic(auto, unfolding(crate::specs::Found::mark_at))]
fn mark_at(level: Level, first: u8) -> Option<Read>
    ensures value { result ≡ mark_at level first }
    ensures single { IfSome result (λ read. (read.length ≡ 1) × (0 < first)) }
{
    if is_quote(first) {
        Some(Read {
            kind: TokenKind::Quote,
            length: 1,
            change: Change::Enter(Level::Text(first)),
            before: Before::Other,
        })
    } else {
        brace_at(level, first)
    }
}

/// Whether a `-` there may belong to an integer.
#[tactic(auto, unfolding(crate::specs::Found::may_be_signed))]
fn may_be_signed(before: Before) -> bool
    ensures { result ≡ may_be_signed before }
{
    match before {
        Before::Start | Before::LineFeed | Before::Other => true,
        Before::Operand => false,
    }
}

/// A match as a token, if it takes a byte.
#[tactic(auto, unfolding(crate::specs::Found::match_found))]
fn match_found(longest: Match, bytes: &[u8]) -> Found
    requires { longest.length ≤ length bytes.now }
    ensures value { result ≡ match_found longest bytes.now }
    ensures inside { IsWithin (length bytes.now) result }
{
    if longest.length == 0 {
        return Found::Nothing;
    }
    let before = before_behind(longest.kind, &bytes[..longest.length]);
    Found::Token(Read {
        kind: longest.kind,
        length: longest.length,
        change: Change::Stay,
        before,
    })
}

/// A mark, or else the longest match.
#[tactic(auto, unfolding(crate::specs::Found::token_found))]
fn token_found(mark: Option<Read>, longest: Match, bytes: &[u8]) -> Found
    requires longest { longest.length ≤ length bytes.now }
    requires mark { ForSome mark (λ read. (0 < read.length) × (read.length ≤ length bytes.now)) }
    ensures value { result ≡ token_found mark longest bytes.now }
    ensures inside { IsWithin (length bytes.now) result }
{
    match mark {
        Some(mark) => Found::Token(mark),
        None => match_found(longest, bytes),
    }
}

/// What stands at the front outside of texts, or in a `${`.
#[tactic(auto, unfolding(crate::specs::Found::code_found))]
fn code_found(level: Level, before: Before, bytes: &[u8]) -> Found
    ensures value { result ≡ code_found level before bytes.now }
    ensures inside { IsWithin (length bytes.now) result }
{
    let separator = separator_length(bytes);
    let first = byte_at(bytes, 0);
    if separator > 0 {
        return Found::Gap(separator, first == b'\n');
    }
    let longest = match_at(bytes, may_be_signed(before));
    token_found(mark_at(level, first), longest, bytes)
}

/// What stands at the front in a text with this quote.
#[tactic(auto, unfolding(crate::specs::Found::text_found))]
fn text_found(quote: u8, bytes: &[u8]) -> Found
    requires { 0 < length bytes.now }
    ensures value { result ≡ text_found quote bytes.now }
    ensures inside { IsWithin (length bytes.now) result }
{
    if byte_at(bytes, 0) == quote {
        return Found::Token(CLOSING_QUOTE);
    }
    if begins_opening(bytes) {
        return Found::Token(OPENING);
    }
    let length = part_length(quote, bytes);
    if length == 0 {
        return Found::Nothing;
    }
    Found::Token(Read {
        kind: TokenKind::Part,
        length,
        change: Change::Stay,
        before: Before::Other,
    })
}

/// What stands at the front.
#[tactic(auto, unfolding(crate::specs::Found::found_at))]
pub(crate) fn found_at(level: Level, before: Before, bytes: &[u8]) -> Found
    requires { 0 < length bytes.now }
    ensures value { result ≡ found_at level before bytes.now }
    ensures inside { IsWithin (length bytes.now) result }
{
    match level {
        Level::Text(quote) => text_found(quote, bytes),
        Level::Outside => code_found(Level::Outside, before, bytes),
        Level::Embedded => code_found(Level::Embedded, before, bytes),
        Level::Braces => code_found(Level::Braces, before, bytes),
    }
}
