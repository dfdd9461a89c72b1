//! The print of a source.
ghost use Rattle.ink_round.specs.ReadsBack.{Prints};

use crate::again::print_reads_back;
use ink_base::{JudgeFault, Limits, Text};
use ink_print::print_module;
use ink_reading::read_module;
use std::alloc::Global;

/// Reads a source and gives the canonical print of the module that it is.
///
/// The print has the tokens and the tree of the same module, but it may be longer than the limit of a source. Refused is
/// what `read_module` refuses. `OutOfMemory` says nothing of the source.
pub fn print_source(alloc: Global, source: &[u8], limits: &Limits) -> Result<Text, JudgeFault>
    ensures { Prints limits.now source.now result }
{
    let reading = read_module(alloc, source, limits)?;
    let text = print_module(alloc, source, &reading.module)?;
    // A law, for what is promised of the text: it does nothing.
    print_reads_back();
    Ok(text)
}
