//! What the phases of the reading answer: tokens, shapes, the grammar, and the whole.

use ink_base::{JudgeFault, Limits, Refusal, Token};
use ink_grammar::{ParseError, Terminal, parse};
use ink_reading::read_module;
use ink_shapes::{shape_of, shapes};
use ink_sheet::Sheet;
use ink_tokens::tokens;
use std::alloc::{AllocError, Global};

/// More bytes than a source of these cases has.
const LONGEST: usize = 1_000_000;

/// The limits that the reading does not ask for.
const OTHERS: u64 = 1;

/// What is told where a source gives nothing.
pub fn fault_told(alloc: Global, fault: JudgeFault) -> Result<String, AllocError> {
    match fault {
        JudgeFault::OutOfMemory => Err(AllocError),
        JudgeFault::Refused(refusal) => text_told(alloc, refusal.text(alloc)?.bytes()),
    }
}

/// A text that is told as it is.
pub fn text_told(alloc: Global, text: &[u8]) -> Result<String, AllocError> {
    String::from_str(alloc, text_of(text))
}

/// The characters of a text.
fn text_of(text: &[u8]) -> &str {
    str::from_utf8(text).unwrap_or("no UTF-8")
}

/// The characters of a token.
pub fn terminal_text(source: &[u8], token: Terminal) -> &str {
    text_of(
        source
            .get(token.start as usize..token.end as usize)
            .unwrap_or(&[]),
    )
}

/// The text of a token.
pub fn terminal_told(alloc: Global, source: &[u8], token: Terminal) -> Result<String, AllocError> {
    String::from_str(alloc, terminal_text(source, token))
}

fn token_told(sheet: &mut Sheet, token: &Token) {
    sheet.text(if token.new_line { "/" } else { "" });
    sheet.shown(&token.kind);
    sheet.text(" ");
    sheet.plain(&token.start);
    sheet.text("-");
    sheet.plain(&token.end);
}

fn all_told(alloc: Global, tokens: &[Token]) -> Result<String, AllocError> {
    let mut sheet = Sheet::new(alloc);
    let mut between = "";
    for token in tokens {
        sheet.text(between);
        token_told(&mut sheet, token);
        between = ", ";
    }
    sheet.whole()
}

/// The rule that is broken, and the byte.
fn rule_told(alloc: Global, refusal: &Refusal) -> Result<String, AllocError> {
    let mut sheet = Sheet::new(alloc);
    sheet.plain(&refusal.rule);
    sheet.text(" at ");
    sheet.plain(&refusal.place.byte);
    sheet.whole()
}

/// The tokens, or the rule that is broken and the byte.
pub fn tokens_told(alloc: Global, source: &[u8]) -> Result<String, AllocError> {
    if source.len() > LONGEST {
        return Err(AllocError);
    }
    match tokens(alloc, source) {
        Ok(tokens) => all_told(alloc, &tokens),
        Err(JudgeFault::OutOfMemory) => Err(AllocError),
        Err(JudgeFault::Refused(refusal)) => rule_told(alloc, &refusal),
    }
}

/// The shape of the first token.
pub fn first_shape(alloc: Global, source: &[u8]) -> Result<String, AllocError> {
    if source.len() > LONGEST {
        return Err(AllocError);
    }
    let tokens = match tokens(alloc, source) {
        Ok(tokens) => tokens,
        Err(fault) => return fault_told(alloc, fault),
    };
    match tokens.first() {
        Some(token) => format!(in alloc; "{:?}", shape_of(source, token)),
        None => String::from_str(alloc, "no token"),
    }
}

/// The tokens as the grammar sees them.
fn terminals(alloc: Global, source: &[u8]) -> Result<Vec<Terminal>, JudgeFault> {
    if source.len() > LONGEST {
        return Err(JudgeFault::OutOfMemory);
    }
    let tokens = tokens(alloc, source)?;
    Ok(shapes(alloc, source, &tokens)?)
}

/// Whether the tokens are a module, or which of them is unexpected.
pub fn parse_told(alloc: Global, source: &[u8]) -> Result<String, AllocError> {
    let terminals = match terminals(alloc, source) {
        Ok(terminals) => terminals,
        Err(fault) => return fault_told(alloc, fault),
    };
    match parse(alloc, &terminals) {
        Ok(_) => String::from_str(alloc, "parsed"),
        Err(ParseError::Unexpected(number)) => format!(in alloc; "unexpected token {number}"),
        Err(ParseError::OutOfMemory) => Err(AllocError),
    }
}

/// Whether the source is read, or the rule that it breaks and the place.
pub fn read_told(alloc: Global, source: &[u8], limits: &Limits) -> Result<String, AllocError> {
    match read_module(alloc, source, limits) {
        Ok(_) => String::from_str(alloc, "read"),
        Err(fault) => fault_told(alloc, fault),
    }
}

fn read_within(
    alloc: Global,
    source: &[u8],
    length: u64,
    height: u64,
) -> Result<String, AllocError> {
    let one = OTHERS;
    let numbers = [
        length, height, one, one, one, one, one, one, one, one, one, one, one, one,
    ];
    match Limits::new(numbers) {
        Ok(limits) => read_told(alloc, source, &limits),
        Err(_) => String::from_str(alloc, "no limits"),
    }
}

/// What is told of the source within its own length, within a byte less, and within the height 1.
pub fn limits_told(alloc: Global, source: &[u8]) -> Result<String, AllocError> {
    let length = source.len() as u64;
    let mut sheet = Sheet::new(alloc);
    sheet.made(read_within(alloc, source, length, 200));
    sheet.text("; within a byte less: ");
    sheet.made(read_within(alloc, source, length.saturating_sub(1), 200));
    sheet.text("; within the height 1: ");
    sheet.made(read_within(alloc, source, length, 1));
    sheet.whole()
}
