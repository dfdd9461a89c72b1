//! The whole.
ghost use Rattle.std.specs.Prelude.{IfOk};
ghost use Rattle.ink_assemble.specs.Certain.{TestsOnlyWhereUncertain};
ghost use Rattle.ink_ranges.specs.Ranges.{IsWithin};

use crate::constants::constants_of;
use crate::entry::{Entry, entry_of};
use crate::impls::impls_of;
use crate::kinds::kinds_of;
use crate::methods::methods_of;
use ink_arms::Context;
use ink_checked::Checked;
use ink_code::Code;
use ink_emit::{LowerFault, Unsound};
use ink_plan::{Registers, drop_plan};
use ink_ranges::is_within;
use std::alloc::Global;

/// The code of a module that begins where it says.
fn assemble(alloc: Global, checked: &Checked, entry: Entry) -> Result<Code, LowerFault>
    ensures { IfOk result (λ code. TestsOnlyWhereUncertain checked.now code.methods) }
{
    let plan = drop_plan(alloc, checked)?;
    let registers = Registers::of_module(alloc, checked)?;
    let (constants, values) = constants_of(alloc, checked)?;
    let context = Context {
        alloc,
        checked,
        registers: &registers,
        constants,
    };
    Ok(Code {
        methods: methods_of(context, &plan, checked.tables().methods())?,
        constants: values,
        kinds: kinds_of(alloc, checked)?,
        impls: impls_of(alloc, checked)?,
        main_kind: entry.kind,
        main: entry.method,
    })
}

/// The code of a module that no phase refuses.
///
/// `OutOfMemory` is want of memory, or of numbers. `Unsound` is told where the code fails a test: it names what it hasn't,
/// tests a variable of which the plan knows whether it is there, or has no `main` to begin with. No module that the phases
/// accept comes to that.
pub fn lower(alloc: Global, checked: &Checked) -> Result<Code, LowerFault>
    ensures within { IfOk result IsWithin }
    ensures certain { IfOk result (λ code. TestsOnlyWhereUncertain checked.now code.methods) }
{
    let Some(entry) = entry_of(checked) else {
        return Err(LowerFault::Unsound(Unsound::Ranges));
    };
    let code = assemble(alloc, checked, entry)?;
    if !is_within(&code) {
        return Err(LowerFault::Unsound(Unsound::Ranges));
    }
    Ok(code)
}
