//! The answer to an action that was made.
ghost use Rattle.std.specs.Prelude.{◌≡◌, MatchOption, Option};
ghost use Rattle.ink_code.specs.Machine.{current, next_place};
ghost use Rattle.ink_code.specs.Replies.{after_done, after_got, after_pair, after_started, answered, resumed};
ghost use Rattle.ink_interp.specs.Answers.{AnswersReply, IsApart, Leaves, told};
ghost use Rattle.ink_interp.specs.declared.reply.Reply.{Reply as OneReply};
ghost use Rattle.ink_parcel.specs.Parts.{AreApartFrom};
ghost use Rattle.ink_proc.specs.State.{state_of};

use crate::begin::take_message;
use crate::reply::{AnswerFault, Reply};
use ink_base::Value;
use ink_code::{Code, Instr, Wrong};
use ink_parcel::{JoinFault, Parcel, join};
use ink_proc::{Frames, Proc};
use std::alloc::Global;

/// The place behind the instruction in work of the innermost frame, and that instruction. `None` where there is no frame,
/// or no instruction at its place.
pub(crate) fn current<'a>(code: &'a Code, frames: &Frames) -> Option<(u32, &'a Instr)>
    ensures { MatchOption result
        (current code.now frames.now ≡ Option.None)
        (λ work. (current code.now frames.now ≡ Option.Some work.1.now) × (next_place frames.now ≡ work.0)) }
{
    let frame = frames.top()?;
    let instr = code.fetch(frame.method, frame.place)?;
    Some((frame.place + 1, instr))
}

/// The frame goes on, and the steps of the process are counted anew.
fn resume(proc: &mut Proc, next: u32)
    requires { next_place proc.old.frames ≡ next }
    ensures { state_of proc.new ≡ resumed (state_of proc.old) }
{
    proc.frames.go_on(next);
    proc.ran = 0;
}

/// After an action that gives nothing back: the drop of a promise is done, or the instruction is.
#[tactic(auto, unfolding(ink_code::specs::Machine::given))]
fn end_action(proc: &mut Proc, code: &Code) -> Result<(), Wrong>
    ensures { Leaves (after_done code.now proc.old.pending (state_of proc.old)) result (state_of proc.new) }
{
    let Some((next, _)) = current(code, &proc.frames) else {
        return Err(Wrong::Absent);
    };
    proc.pending.pop();
    if proc.pending.first().is_none() {
        resume(proc, next);
    }
    proc.ran = 0;
    Ok(())
}

/// After a spawn: a register gets the reference to the new process.
#[tactic(auto, using(crate::proofs::AnswerLemmas::same_place))]
fn put_process(proc: &mut Proc, code: &Code, process: u32) -> Result<(), Wrong>
    ensures { Leaves (after_started process (current code.now proc.old.frames) (state_of proc.old)) result (state_of proc.new) }
{
    match current(code, &proc.frames) {
        Some((next, Instr::Spawn { to, .. })) => {
            proc.frames.set(*to, Value::Proc(process));
            resume(proc, next);
            Ok(())
        }
        _ => Err(Wrong::Kind),
    }
}

/// After a future was made: registers get the future and its promise.
#[tactic(auto, using(crate::proofs::AnswerLemmas::same_place))]
fn put_pair(proc: &mut Proc, code: &Code, number: u32) -> Result<(), Wrong>
    ensures { Leaves (after_pair number (current code.now proc.old.frames) (state_of proc.old)) result (state_of proc.new) }
{
    match current(code, &proc.frames) {
        Some((next, Instr::FutureNew { future, promise })) => {
            proc.frames.set(*future, Value::Future(number));
            proc.frames.set(*promise, Value::Promise(number));
            resume(proc, next);
            Ok(())
        }
        _ => Err(Wrong::Kind),
    }
}

/// After a get: the future is used up, and a register gets its value.
#[tactic(auto, using(crate::proofs::AnswerLemmas::same_place))]
fn put_value(proc: &mut Proc, code: &Code, parcel: Parcel) -> Result<(), AnswerFault>
    requires { AreApartFrom proc.old.heap.objects parcel.objects }
    ensures { AnswersReply (after_got parcel (current code.now proc.old.frames) (state_of proc.old)) result (OneReply.Got parcel) (state_of proc.old) (state_of proc.new) }
{
    let Some((next, Instr::FutureGet { to, future })) = current(code, &proc.frames) else {
        return Err(AnswerFault::Wrong(Wrong::Kind));
    };
    let mut values = match join(&mut proc.heap, parcel) {
        Err(JoinFault::OutOfMemory(parcel)) => {
            return Err(AnswerFault::OutOfMemory(Reply::Got(parcel)));
        }
        Ok(values) => values,
    };
    let value = match values.pop() {
        None => return Err(AnswerFault::Wrong(Wrong::Absent)),
        Some(value) => value,
    };
    if !values.is_empty() {
        return Err(AnswerFault::Wrong(Wrong::Absent));
    }
    proc.frames.set(*future, Value::Empty);
    proc.frames.set(*to, value);
    resume(proc, next);
    Ok(())
}

/// Puts the reply to the action for which a process waits in its place. The steps of the process are counted anew.
///
/// Only a message and the value of a future want memory.
#[tactic(auto, unfolding(ink_code::specs::Replies::answered))]
pub fn answer(alloc: Global, proc: &mut Proc, code: &Code, reply: Reply) -> Result<(), AnswerFault>
    requires { IsApart reply proc.old.heap.objects }
    ensures { AnswersReply (answered code.now (told reply) (state_of proc.old)) result reply (state_of proc.old) (state_of proc.new) }
{
    let done = match reply {
        Reply::Message { method, parcel } => {
            return take_message(alloc, proc, code, method, parcel);
        }
        Reply::Got(parcel) => return put_value(proc, code, parcel),
        Reply::Done => end_action(proc, code),
        Reply::Process(process) => put_process(proc, code, process),
        Reply::NewPair(future) => put_pair(proc, code, future),
    };
    match done {
        Err(why) => Err(AnswerFault::Wrong(why)),
        Ok(()) => Ok(()),
    }
}
