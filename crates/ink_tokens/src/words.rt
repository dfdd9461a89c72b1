//! The forms of names, of symbols, and of the words that the language keeps.
ghost use Rattle.std.specs.Prelude.{◌≡◌, ◌<◌, ◌≤◌, length, true};
ghost use Rattle.ink_tokens.specs.Words.{name_length, const_length, field_length, symbol_length, is_pair, ends_pair, is_single, is_keyword, word_kind, ends_bracket, is_value_word};

use crate::bytes::{Class, begins_name, byte_at, run};
use ink_base::TokenKind;

/// The words that the language keeps for itself.
const KEYWORDS: [&[u8]; 33] = [
    b"and", b"async", b"break", b"case", b"else", b"enum", b"false", b"fn", b"for", b"if", b"impl",
    b"import", b"let", b"loop", b"match", b"move", b"mut", b"next", b"nil", b"or", b"pub",
    b"recover", b"ref", b"return", b"self", b"static", b"throw", b"trait", b"true", b"try",
    b"type", b"uni", b"while",
];

/// The symbols of two bytes.
const PAIRS: [&[u8]; 13] = [
    b":=", b"==", b"!=", b"<=", b">=", b"<<", b">>", b"+=", b"-=", b"*=", b"/=", b"%=", b"->",
];

/// The symbols of one byte.
const SINGLES: &[u8] = b"()[]{},.:=<>+-*/%&|^";

/// The brackets that end an operand.
const ENDS: &[u8] = b")]}";

/// The words that stand for a value.
const VALUE_WORDS: [&[u8]; 4] = [b"self", b"true", b"false", b"nil"];

/// How many bytes the name at the front takes, and 0 where none stands there.
#[tactic(auto, unfolding(crate::specs::Words::name_length))]
pub(crate) fn name_length(bytes: &[u8]) -> usize
    ensures value { result ≡ name_length bytes.now }
    ensures inside { result ≤ length bytes.now }
{
    if !begins_name(byte_at(bytes, 0)) {
        return 0;
    }
    let word = run(bytes, Class::Word);
    if byte_at(bytes, word) == b'?' {
        word + 1
    } else {
        word
    }
}

/// How many bytes the word with a capital at the front takes, and 0 where none stands there.
#[tactic(auto, unfolding(crate::specs::Words::const_length))]
pub(crate) fn const_length(bytes: &[u8]) -> usize
    ensures value { result ≡ const_length bytes.now }
    ensures inside { result ≤ length bytes.now }
{
    if byte_at(bytes, 0).is_ascii_uppercase() {
        run(bytes, Class::Word)
    } else {
        0
    }
}

/// How many bytes the field at the front takes, and 0 where none stands there.
#[tactic(auto, unfolding(crate::specs::Words::field_length))]
pub(crate) fn field_length(bytes: &[u8]) -> usize
    ensures value { result ≡ field_length bytes.now }
    ensures inside { result ≤ length bytes.now }
{
    if byte_at(bytes, 0) == b'@' && begins_name(byte_at(bytes, 1)) {
        1 + run(&bytes[1..], Class::Word)
    } else {
        0
    }
}

/// How many bytes the longest symbol at the front takes, and 0 where none stands there.
#[tactic(auto, unfolding(crate::specs::Words::symbol_length))]
pub(crate) fn symbol_length(bytes: &[u8]) -> usize
    ensures value { result ≡ symbol_length bytes.now }
    ensures inside { result ≤ length bytes.now }
{
    if bytes.len() >= 2 && is_pair(&bytes[..2]) {
        2
    } else if is_single(byte_at(bytes, 0)) {
        1
    } else {
        0
    }
}

/// Whether a symbol of two bytes ends with the byte.
fn ends_pair(byte: u8) -> bool
    ensures { result ≡ ends_pair byte }
{
    byte == b'=' || byte == b'<' || byte == b'>'
}

/// Whether the text is a symbol of two bytes.
#[tactic(auto, unfolding(crate::specs::Words::is_pair), using(crate::proofs::FilterLemmas::no_pair))]
fn is_pair(text: &[u8]) -> bool
    ensures { result ≡ is_pair text.now }
{
    // Most texts are told apart by one byte, before each symbol is compared.
    if !ends_pair(byte_at(text, 1)) {
        return false;
    }
    PAIRS.contains(&text)
}

/// Whether the byte alone is a symbol.
#[tactic(auto, unfolding(crate::specs::Words::is_single))]
fn is_single(byte: u8) -> bool
    ensures value { result ≡ is_single byte }
    ensures some { result ≡ true → 0 < byte }
{
    SINGLES.contains(&byte)
}

/// Whether the text is a word that the language keeps for itself.
#[tactic(auto, unfolding(crate::specs::Words::is_keyword), using(crate::proofs::FilterLemmas::no_short_keyword, crate::proofs::FilterLemmas::no_long_keyword))]
pub(crate) fn is_keyword(text: &[u8]) -> bool
    ensures { result ≡ is_keyword text.now }
{
    // Most names are told apart by their length, before each word is compared.
    if text.len() < 2 {
        return false;
    }
    if text.len() > 7 {
        return false;
    }
    KEYWORDS.contains(&text)
}

/// What a word in the spelling of a name is.
#[tactic(auto, unfolding(crate::specs::Words::word_kind))]
pub(crate) fn word_kind(text: &[u8]) -> TokenKind
    ensures { result ≡ word_kind text.now }
{
    if text == b"_".as_slice() {
        TokenKind::Underscore
    } else if is_keyword(text) {
        TokenKind::Keyword
    } else {
        TokenKind::Name
    }
}

/// Whether the byte is a bracket that ends an operand.
#[tactic(auto, unfolding(crate::specs::Words::ends_bracket))]
pub(crate) fn ends_bracket(byte: u8) -> bool
    ensures { result ≡ ends_bracket byte }
{
    ENDS.contains(&byte)
}

/// Whether the keyword stands for a value.
#[tactic(auto, unfolding(crate::specs::Words::is_value_word))]
pub(crate) fn is_value_word(text: &[u8]) -> bool
    ensures { result ≡ is_value_word text.now }
{
    VALUE_WORDS.contains(&text)
}
