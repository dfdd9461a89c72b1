//! Steps that touch the frames alone, made many at a time.
ghost use Rattle.std.specs.Prelude.{◌≡◌, ◌+◌, ◌^◌, ◌<◌, ◌≤◌, []};
ghost use Rattle.ink_base.specs.declared.limits.Limit.TheVariants as limit;
ghost use Rattle.ink_base.specs.Limits.{limit_of};
ghost use Rattle.ink_code.specs.Calls.{return_step};
ghost use Rattle.ink_interp.specs.Quick.{IsChange, IsQuick, IsRun};
ghost use Rattle.ink_proc.specs.State.{state_of};
ghost use Rattle.ink_steps.specs.Answers.{ChangesFrames};

use crate::answering::current;
use ink_base::{Limit, Limits};
use ink_code::{Code, Instr, Wrong};
use ink_proc::{Frames, Pending, Proc};
use ink_steps::{call_if_room, end_frame};
use std::alloc::Global;

/// The end of a frame.
fn end(frames: &mut Frames, code: &Code, from: u32) -> Result<bool, Wrong>
    ensures { ChangesFrames (return_step code.now from) result frames.old frames.new }
{
    match end_frame(frames, code, from) {
        Err(why) => Err(why),
        Ok(()) => Ok(true),
    }
}

/// A call, or the end of a frame. `false` where nothing is done, and all is as before.
#[tactic(auto, using(crate::proofs::QuickLemmas::calls, crate::proofs::QuickLemmas::returns))]
fn change_frame(
    alloc: Global,
    frames: &mut Frames,
    code: &Code,
    limits: &Limits,
) -> Result<bool, Wrong>
    ensures { IsChange code.now limits.now result frames.old frames.new }
{
    match current(code, frames) {
        Some(
            (
                _,
                Instr::Invoke {
                    to,
                    method,
                    arguments,
                },
            ),
        ) => call_if_room(
            alloc,
            frames,
            code,
            limits,
            *to,
            *method,
            arguments.as_slice(),
        ),
        Some((_, Instr::Return { from })) => end(frames, code, *from),
        _ => Ok(false),
    }
}

/// At most so many steps of the frames, up to the first that isn't made here: how many were made.
fn run_frames(
    alloc: Global,
    frames: &mut Frames,
    code: &Code,
    limits: &Limits,
    most: u64,
) -> Result<u64, Wrong>
    ensures { IsRun code.now limits.now most result frames.old frames.new }
{
    let mut made = 0;
    for _ in 0..most {
        made += frames.run_top(code, most - made);
        if made >= most {
            return Ok(made);
        }
        match change_frame(alloc, frames, code, limits) {
            Err(why) => return Err(why),
            Ok(false) => return Ok(made),
            Ok(true) => made += 1,
        }
    }
    Ok(made)
}

/// How many steps of a process are made here at once, of so many at most: none where a drop waits.
#[tactic(auto, using(crate::proofs::QuickLemmas::none_waits))]
fn most_at_once(pending: &Pending, ran: u64, limits: &Limits, most: u64) -> u64
    ensures most { result ≤ most }
    ensures free { 0 < result → pending.now ≡ [] }
    ensures fits { 0 < result → ran + result ≤ limit_of limit.Local limits.now }
    ensures range { ran + result < 2 ^ 64 }
{
    let local = limits.get(Limit::Local);
    if local <= ran {
        return 0;
    }
    if pending.first().is_some() {
        return 0;
    }
    most.min(local - ran)
}

/// At most so many steps of a process, up to the first that isn't made here: how many were made.
#[tactic(auto, using(crate::proofs::QuickLemmas::none_leads))]
pub(crate) fn run_quick(
    alloc: Global,
    proc: &mut Proc,
    code: &Code,
    limits: &Limits,
    most: u64,
) -> Result<u64, Wrong>
    ensures { IsQuick code.now limits.now most result (state_of proc.old) (state_of proc.new) }
{
    let few = most_at_once(&proc.pending, proc.ran, limits, most);
    if few == 0 {
        return Ok(0);
    }
    match run_frames(alloc, &mut proc.frames, code, limits, few) {
        Err(why) => Err(why),
        Ok(made) => {
            proc.ran += made;
            Ok(made)
        }
    }
}
