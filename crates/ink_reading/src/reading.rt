//! A source that is read.
ghost use Rattle.ink_reading.specs.Reading.{Answers};

use crate::phases::{judge_grammar, judge_height, judge_length, judge_text};
use ink_base::{JudgeFault, Limits, Token};
use ink_grammar::Module;
use ink_tokens::tokens;
use std::alloc::Global;

/// What a source is read as.
#[derive(Drop)]
pub struct Reading {
    /// The tokens in the order of the source.
    pub tokens: Vec<Token>,
    /// The module that they are.
    pub module: Module,
}

/// Reads a source: its tokens and the module that they are.
///
/// Refused is the first phase that the source breaks: `SourceTooLong` at the first byte over the limit; `NotUtf8` where
/// it stops being UTF-8; `BadToken`, `IntTooWide` or `UnendedText` as the tokens have it; `Unexpected` at the first
/// token with which no module begins, or at the end of the source; `TooDeep` at the first expression, pattern or type
/// that is higher than the limit. `OutOfMemory` says nothing of the source.
pub fn read_module(alloc: Global, source: &[u8], limits: &Limits) -> Result<Reading, JudgeFault>
    ensures { Answers limits.now source.now result }
{
    judge_length(source, limits)?;
    judge_text(source)?;
    let tokens = tokens(alloc, source)?;
    let module = judge_grammar(alloc, source, &tokens)?;
    judge_height(alloc, source, &module, limits)?;
    Ok(Reading { tokens, module })
}
