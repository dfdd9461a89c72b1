//! A message begins: its method is the first frame of the process.
ghost use Rattle.std.specs.Prelude.{◌≡◌, ◌≤◌, [], IfOk};
ghost use Rattle.std.specs.Vec.{vec_capacity};
ghost use Rattle.ink_code.specs.Replies.{after_taken};
ghost use Rattle.ink_interp.specs.Answers.{AnswersReply};
ghost use Rattle.ink_interp.specs.declared.reply.Reply.{Reply as OneReply};
ghost use Rattle.ink_parcel.specs.Parts.{AreApartFrom};
ghost use Rattle.ink_proc.specs.State.{state_of};

use crate::reply::{AnswerFault, Reply};
use ink_base::{ObjectId, Value};
use ink_code::{Code, Frame, Wrong};
use ink_heap::MOST_BORROWS;
use ink_parcel::{Parcel, join};
use ink_proc::{Frames, Proc};
use std::alloc::{AllocError, Global};

/// Room for the first frame of a process, and for so many values in its registers.
fn rooms(alloc: Global, registers: u32, values: u64) -> Result<(Vec<Frame>, Vec<Value>), AllocError>
    ensures none { IfOk result (λ rooms. rooms.0.items ≡ []) }
    ensures one { IfOk result (λ rooms. 1 ≤ vec_capacity rooms.0) }
    ensures empty { IfOk result (λ rooms. rooms.1.items ≡ []) }
    ensures registers { IfOk result (λ rooms. registers ≤ vec_capacity rooms.1) }
    ensures values { IfOk result (λ rooms. values ≤ vec_capacity rooms.1) }
{
    let frames = Vec::with_capacity(alloc, 1)?;
    let room = Vec::with_capacity(alloc, (registers as usize).max(values as usize))?;
    Ok((frames, room))
}

/// A message was taken: its method begins, with a borrow of the state and then its values. The borrow is counted.
#[tactic(auto, using(crate::proofs::AnswerLemmas::still_apart), unfolding(ink_code::specs::Machine::given, ink_code::specs::Machine::after, ink_code::specs::Objects::after_copy, ink_base::specs::Objects::changed_object))]
pub(crate) fn take_message(
    alloc: Global,
    proc: &mut Proc,
    code: &Code,
    method: u32,
    parcel: Parcel,
) -> Result<(), AnswerFault>
    requires { AreApartFrom proc.old.heap.objects parcel.objects }
    ensures { AnswersReply (after_taken code.now method parcel (state_of proc.old)) result (OneReply.Message method parcel) (state_of proc.old) (state_of proc.new) }
{
    let Some(called) = code.methods.get(u64::from(method)) else {
        return Err(AnswerFault::Wrong(Wrong::Absent));
    };
    let registers = called.registers;
    let state = ObjectId {
        process: proc.number,
        serial: 1,
    };
    let Some(borrows) = proc.heap.count(&state) else {
        return Err(AnswerFault::Wrong(Wrong::Object));
    };
    if borrows >= MOST_BORROWS {
        return Err(AnswerFault::OutOfMemory(Reply::Message { method, parcel }));
    }
    let count = parcel.values().len() as u64 + 1;
    let Ok((frames, room)) = rooms(alloc, registers, count) else {
        return Err(AnswerFault::OutOfMemory(Reply::Message { method, parcel }));
    };
    if proc.heap.reserve(parcel.object_count()).is_err() {
        return Err(AnswerFault::OutOfMemory(Reply::Message { method, parcel }));
    }
    proc.heap.count_up(&state);
    let Ok(values) = join(&mut proc.heap, parcel) else {
        unreachable!()
    };
    proc.frames = Frames::first(frames, room, method, registers, Value::Bor(state), values);
    proc.ran = 0;
    Ok(())
}
