//! The verdict on a source, and the code of one that is accepted.
ghost use Rattle.std.specs.Prelude.{◌≡◌, IfErr, IfOk};
ghost use Rattle.ink_commands.specs.Sources.{CheckedSource, IsLowerFault, MakesCode};
ghost use Rattle.ink_commands.specs.Verdict.{Judges};
ghost use Rattle.ink_ranges.specs.Ranges.{IsWithin};

use ink_assemble::lower;
use ink_base::{JudgeFault, Limits, Place, Refusal, Rule};
use ink_causes::Cause;
use ink_checked::Checked;
use ink_code::Code;
use ink_emit::LowerFault;
use ink_reading::read_module;
use std::alloc::Global;

/// The refusal of a source that has no token.
const NO_MAIN: Refusal = Refusal {
    rule: Rule::NoMain,
    place: Place::START,
    detail: None,
};

/// Judges a source by all phases, and gives the module where none refuses it.
///
/// Refused is the first phase that the source breaks, and with `NoMain` a source that has no token.
fn judge(alloc: Global, source: &[u8], limits: &Limits) -> Result<Checked, JudgeFault>
    ensures { Judges limits.now source.now result }
{
    let reading = read_module(alloc, source, limits)?;
    if reading.tokens.is_empty() {
        return Err(JudgeFault::Refused(NO_MAIN));
    }
    ink_front::judge(alloc, source, &reading.module)
}

/// Judges a source.
pub fn check_source(alloc: Global, source: &[u8], limits: &Limits) -> Cause
    ensures { CheckedSource limits.now result source.now }
{
    match judge(alloc, source, limits) {
        Err(JudgeFault::Refused(refusal)) => Cause::Refused(refusal),
        Err(JudgeFault::OutOfMemory) => Cause::OutOfMemory,
        Ok(_) => Cause::Accepted,
    }
}

/// The code of a module that is accepted.
fn lowered(alloc: Global, checked: &Checked) -> Result<Code, Cause>
    ensures within { IfOk result IsWithin }
    ensures fault { IfErr result IsLowerFault }
{
    match lower(alloc, checked) {
        Err(LowerFault::OutOfMemory) => Err(Cause::OutOfMemory),
        Err(LowerFault::Unsound(_)) => Err(Cause::Unbuilt),
        Ok(code) => Ok(code),
    }
}

/// Judges a source, and makes the code of its module where it is accepted.
pub fn code_of(alloc: Global, source: &[u8], limits: &Limits) -> Result<Code, Cause>
    ensures { MakesCode limits.now source.now result }
{
    match judge(alloc, source, limits) {
        Err(JudgeFault::Refused(refusal)) => Err(Cause::Refused(refusal)),
        Err(JudgeFault::OutOfMemory) => Err(Cause::OutOfMemory),
        Ok(checked) => lowered(alloc, &checked),
    }
}
