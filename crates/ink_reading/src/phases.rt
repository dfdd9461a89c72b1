//! The phases of the reading, each with its own rule.
ghost use Rattle.std.specs.Prelude.{◌≡◌, ◌+◌, ◌<◌, ◌≤◌, ◌^◌, ℕ, length, All, OnOk, IfErr, slice_get};
ghost use Rattle.ink_base.specs.Limits.{limit_of};
ghost use Rattle.ink_base.specs.declared.limits.Limit.TheVariants.{Source, Height};
ghost use Rattle.ink_base.specs.declared.refusal.Rule.TheVariants.{SourceTooLong, NotUtf8};
ghost use Rattle.ink_base.specs.declared.refusal.JudgeFault.TheVariants.{Refused};
ghost use Rattle.ink_text.specs.Utf8.{Utf8, StopsAt};
ghost use Rattle.ink_tokens.specs.Lexes.{IsInside, HasPlaces};
ghost use Rattle.ink_text.specs.Place.{place_at};
ghost use Rattle.ink_grammar.specs.Views.{tree};
ghost use Rattle.ink_reading.specs.Phases.{broken, start_or_end, byte_of, JudgesGrammar, JudgesHeight};

use ink_base::{JudgeFault, Limit, Limits, Place, Refusal, Rule, Token};
use ink_grammar::{Module, ParseError, parse};
use ink_heights::first_too_high;
use ink_shapes::shapes;
use ink_text::{decode, place_of};
use std::alloc::Global;

/// The rule as it is told, broken at the byte.
fn broken(source: &[u8], rule: Rule, byte: u32) -> JudgeFault
    requires inside { byte ≤ length source.now }
    requires small { byte + 1 < 2 ^ 32 }
    ensures { result ≡ Refused (broken source.now rule byte) }
{
    JudgeFault::Refused(Refusal {
        rule,
        place: place_of(source, byte),
        detail: None,
    })
}

/// Refuses a source with more bytes than the limit, at the first byte that is over it.
pub(crate) fn judge_length(source: &[u8], limits: &Limits) -> Result<(), JudgeFault>
    ensures short { OnOk result (length source.now ≤ limit_of Source limits.now) }
    ensures small { OnOk result (HasPlaces source.now) }
    ensures long { IfErr result (λ fault. (limit_of Source limits.now < length source.now) × (fault ≡ Refused (broken source.now SourceTooLong (limit_of Source limits.now)))) }
{
    let most = limits.get(Limit::Source);
    if source.len() as u64 > most {
        return Err(broken(source, Rule::SourceTooLong, most as u32));
    }
    Ok(())
}

/// Refuses a source that isn't UTF-8, where it stops being so.
pub(crate) fn judge_text(source: &[u8]) -> Result<(), JudgeFault>
    requires { HasPlaces source.now }
    ensures text { OnOk result (Utf8 source.now) }
    ensures other { IfErr result (λ fault. (byte : ℕ) × StopsAt source.now byte × (fault ≡ Refused (broken source.now NotUtf8 byte))) }
{
    match decode(source) {
        Ok(()) => Ok(()),
        Err(stop) => Err(broken(source, Rule::NotUtf8, stop.0 as u32)),
    }
}

/// The byte of the token of this number, or the end of the source.
#[tactic(auto, unfolding(crate::specs::Phases::start_or_end))]
fn byte_of(source: &[u8], tokens: &[Token], number: usize) -> u32
    requires small { HasPlaces source.now }
    requires inside { All (IsInside source.now) tokens.now }
    ensures byte { result ≡ byte_of source.now tokens.now number }
    ensures inside { result ≤ length source.now }
{
    match tokens.get(number) {
        Some(token) => token.start,
        None => source.len() as u32,
    }
}

/// The module that the tokens are. Refuses the first token with which no module begins, or the end.
pub(crate) fn judge_grammar(
    alloc: Global,
    source: &[u8],
    tokens: &[Token],
) -> Result<Module, JudgeFault>
    requires small { HasPlaces source.now }
    requires inside { All (IsInside source.now) tokens.now }
    ensures { JudgesGrammar source.now tokens.now result }
{
    let seen = shapes(alloc, source, tokens)?;
    match parse(alloc, &seen) {
        Ok(module) => Ok(module),
        Err(ParseError::OutOfMemory) => Err(JudgeFault::OutOfMemory),
        Err(ParseError::Unexpected(number)) => {
            let byte = byte_of(source, tokens, number);
            Err(broken(source, Rule::Unexpected, byte))
        }
    }
}

/// The place of a byte. One behind the end, which no node has, has the line and the column of the end.
fn place_in(source: &[u8], byte: u32) -> Place
    requires { HasPlaces source.now }
    ensures { result ≡ place_at source.now byte }
{
    let end = source.len() as u32;
    let place = place_of(source, byte.min(end));
    Place { byte, ..place }
}

/// Refuses the first expression, pattern or type of the module that is higher than the limit.
pub(crate) fn judge_height(
    alloc: Global,
    source: &[u8],
    parsed: &Module,
    limits: &Limits,
) -> Result<(), JudgeFault>
    requires { HasPlaces source.now }
    ensures { JudgesHeight source.now (limit_of Height limits.now) (tree parsed.now) result }
{
    match first_too_high(alloc, parsed, limits.get(Limit::Height))? {
        None => Ok(()),
        Some(byte) => Err(JudgeFault::Refused(Refusal {
            rule: Rule::TooDeep,
            place: place_in(source, byte),
            detail: None,
        })),
    }
}
