//! Several steps of a process.
ghost use Rattle.std.specs.Prelude.{◌≡◌, ◌≢◌, Result};
ghost use Rattle.std.specs.Bool.{MatchBool};
ghost use Rattle.ink_interp.specs.Slices.{AnswersSlice};
ghost use Rattle.ink_proc.specs.State.{state_of};
ghost use Rattle.ink_steps.specs.declared.stepped.Stepped.TheVariants.{Went};

use crate::quick::run_quick;
use crate::stepping::step;
use ink_base::Limits;
use ink_code::Code;
use ink_proc::Proc;
use ink_steps::{StepFault, Stepped};
use std::alloc::Global;

/// Whether a step was made, and the next one can follow.
fn went_on(came: &Result<Stepped, StepFault>) -> bool
    ensures { MatchBool result (came.now ≡ Result.Ok Went) (came.now ≢ Result.Ok Went) }
{
    matches!(came, Ok(Stepped::Went))
}

/// At most so many steps of a process, up to the first that comes to something else than the next one.
///
/// `Went` exactly where all of them were made and went on. After `OutOfMemory` the process is as before the step for which
/// there was none.
pub fn slice(
    alloc: Global,
    proc: &mut Proc,
    code: &Code,
    limits: &Limits,
    turns: u64,
) -> Result<Stepped, StepFault>
    ensures { AnswersSlice turns code.now limits.now result (state_of proc.old) (state_of proc.new) }
{
    let mut made = 0;
    for _ in 0..turns {
        match run_quick(alloc, proc, code, limits, turns - made) {
            Err(why) => return Err(StepFault::Wrong(why)),
            Ok(count) => made += count,
        }
        if made >= turns {
            return Ok(Stepped::Went);
        }
        let came = step(alloc, proc, code, limits);
        if !went_on(&came) {
            return came;
        }
        made += 1;
    }
    Ok(Stepped::Went)
}
