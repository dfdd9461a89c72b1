//! What is wrong with a source, and which of two faults is told.
ghost use Rattle.std.specs.Prelude.{◌≡◌, ◌+◌, ◌<◌, ◌≤◌, ◌^◌, length};
ghost use Rattle.std.specs.Option.{ForSome};
ghost use Rattle.ink_tokens.specs.Lexes.{HasPlaces};
ghost use Rattle.ink_tokens.specs.Fault.{first_fault, end_fault, refusal_at, wide_behind, is_wide_integer};

use crate::number::is_too_wide;
use crate::reading::Level;
use ink_base::{JudgeFault, Refusal, Rule, TokenKind};
use ink_text::place_of;

/// A rule that a source breaks, and at which byte.
#[derive(Clone, Copy)]
pub struct Fault {
    pub rule: Rule,
    pub byte: u32,
}

/// Whether the token is an integer that doesn't fit.
#[tactic(auto, unfolding(crate::specs::Fault::is_wide_integer))]
fn is_wide_integer(kind: TokenKind, text: &[u8]) -> bool
    ensures { result ≡ is_wide_integer kind text.now }
{
    match kind {
        TokenKind::Int => is_too_wide(text),
        TokenKind::Name
        | TokenKind::Const
        | TokenKind::Field
        | TokenKind::Symbol
        | TokenKind::Keyword
        | TokenKind::Underscore
        | TokenKind::Quote
        | TokenKind::Part
        | TokenKind::Opening
        | TokenKind::Closing => false,
    }
}

/// The first integer that doesn't fit, once a token at a place is read.
#[tactic(auto, unfolding(crate::specs::Fault::wide_behind))]
pub(crate) fn wide_behind(wide: Option<u32>, at: u32, kind: TokenKind, text: &[u8]) -> Option<u32>
    ensures { result ≡ wide_behind wide at kind text.now }
{
    match wide {
        Some(first) => Some(first),
        None => {
            if is_wide_integer(kind, text) {
                Some(at)
            } else {
                None
            }
        }
    }
}

/// The fault, or the integer that doesn't fit, whichever stands at the lesser byte.
#[tactic(auto, unfolding(crate::specs::Fault::first_fault))]
pub(crate) fn first_fault(wide: Option<u32>, rule: Rule, byte: u32) -> Fault
    ensures { result ≡ first_fault wide rule byte }
{
    match wide {
        Some(first) => {
            if byte < first {
                Fault { rule, byte }
            } else {
                Fault {
                    rule: Rule::IntTooWide,
                    byte: first,
                }
            }
        }
        None => Fault { rule, byte },
    }
}

/// What is wrong where the source ends.
#[tactic(auto, unfolding(crate::specs::Fault::end_fault))]
pub(crate) fn end_fault(level: Level, wide: Option<u32>, opened: u32) -> Option<Fault>
    ensures { result ≡ end_fault level wide opened }
{
    match level {
        Level::Outside => match wide {
            Some(first) => Some(Fault {
                rule: Rule::IntTooWide,
                byte: first,
            }),
            None => None,
        },
        Level::Text(_) => Some(first_fault(wide, Rule::UnendedText, opened)),
        Level::Embedded => Some(first_fault(wide, Rule::UnendedText, opened)),
        Level::Braces => Some(first_fault(wide, Rule::UnendedText, opened)),
    }
}

/// The fault as the phase tells it.
pub(crate) fn told_fault(source: &[u8], fault: Fault) -> JudgeFault
    requires inside { fault.byte ≤ length source.now }
    requires small { HasPlaces source.now }
    ensures { result ≡ JudgeFault.Refused (refusal_at source.now fault) }
{
    JudgeFault::Refused(Refusal {
        rule: fault.rule,
        place: place_of(source, fault.byte),
        detail: None,
    })
}
