//! Drops: those that instructions ask for, and those that wait.
ghost use Rattle.std.specs.Prelude.{◌++◌, drop, slice_get};
ghost use Rattle.std.specs.FinMap.{remove};
ghost use Rattle.ink_base.specs.Panics.{drop_text};
ghost use Rattle.ink_code.specs.Drops.{drop_maybe_step, drop_step, dropped};
ghost use Rattle.ink_code.specs.Machine.{after, given, panics};
ghost use Rattle.ink_code.specs.Makes.{gives_up, take_apart_step};
ghost use Rattle.ink_code.specs.Objects.{after_borrow, object_at};
ghost use Rattle.ink_steps.specs.NextDrop.{first_drop};
ghost use Rattle.ink_steps.specs.Answers.{Goes, IsStep, MayStep};
ghost use Rattle.ink_proc.specs.State.{state_of};

use crate::reads::{go_on, owned_object, register_value};
use crate::stepped::{Request, StepFault, Stepped};
use ink_base::{ObjectId, Value};
use ink_code::{Code, Wrong};
use ink_heap::FreeFault;
use ink_proc::{Proc, TakeApartFault, WaitFault};
use ink_rows::texts::drop_text;
use std::alloc::Global;

/// The value of a register waits to be dropped.
#[tactic(auto, unfolding(ink_code::specs::Drops::drop_step, ink_code::specs::Machine::after))]
pub fn drop_step(proc: &mut Proc, from: u32) -> Result<Stepped, StepFault>
    requires { MayStep proc.old }
    ensures { IsStep (drop_step from) result proc.old proc.new }
{
    match proc.pending.push_from(&mut proc.frames, from) {
        Err(WaitFault::Wrong(why)) => Err(StepFault::Wrong(why)),
        Err(WaitFault::OutOfMemory) => Err(StepFault::OutOfMemory),
        Ok(()) => {
            proc.ran += 1;
            Ok(Stepped::Went)
        }
    }
}

/// The value of a register waits to be dropped, where there is one.
#[tactic(auto, unfolding(ink_code::specs::Drops::drop_maybe_step, ink_code::specs::Drops::drop_step, ink_code::specs::Machine::given, ink_code::specs::Machine::after))]
pub fn drop_maybe_step(proc: &mut Proc, next: u32, from: u32) -> Result<Stepped, StepFault>
    requires { MayStep proc.old }
    ensures { IsStep (drop_maybe_step next from) result proc.old proc.new }
{
    match proc.frames.register(from) {
        None => return Err(StepFault::Wrong(Wrong::Absent)),
        Some(Value::Empty) => {
            go_on(proc, next);
            return Ok(Stepped::Went);
        }
        Some(_) => {}
    }
    drop_step(proc, from)
}

/// A drop is done: where no other waits, the innermost frame goes on.
#[tactic(auto, unfolding(ink_code::specs::Machine::given, ink_code::specs::Machine::settles))]
fn settle(proc: &mut Proc, code: &Code) -> Result<(), Wrong>
    requires { MayStep proc.old }
    ensures { Goes (dropped code.now proc.old.heap.objects proc.old.pending (state_of proc.old)) result (state_of proc.new) }
{
    let (method, place) = match proc.frames.top() {
        None => return Err(Wrong::Absent),
        Some(frame) => (frame.method, frame.place),
    };
    if code.fetch(method, place).is_none() {
        return Err(Wrong::Absent);
    }
    if proc.pending.first().is_none() {
        go_on(proc, place + 1);
        return Ok(());
    }
    proc.ran += 1;
    Ok(())
}

/// The panic where an object of a type has so many borrows.
#[tactic(auto, unfolding(ink_code::specs::Machine::given))]
fn panic_borrowed(
    alloc: Global,
    proc: &Proc,
    code: &Code,
    kind: u32,
    count: u64,
) -> Result<Stepped, StepFault>
    ensures { IsStep (λ p. given Wrong.Absent (slice_get code.now.kinds kind) (λ name. panics (drop_text name count) p)) result proc.now proc.now }
{
    match code.kinds.get(u64::from(kind)) {
        None => Err(StepFault::Wrong(Wrong::Absent)),
        Some(name) => match drop_text(alloc, name, count) {
            Err(_) => Err(StepFault::OutOfMemory),
            Ok(text) => Ok(Stepped::Panics(text)),
        },
    }
}

/// The next drop is that of an object's owner: the object goes, and its fields wait in its place.
#[tactic(auto, unfolding(ink_code::specs::Machine::after, ink_code::specs::Machine::when, ink_code::specs::Objects::object_at))]
fn drop_owner(
    alloc: Global,
    proc: &mut Proc,
    code: &Code,
    id: ObjectId,
) -> Result<Stepped, StepFault>
    requires { MayStep proc.old }
    ensures { IsStep (λ p. after (object_at p.objects id) (λ found. gives_up code.now found p
        (dropped code.now (remove p.objects id) (found.fields ++ drop 1 p.pending) p))) result proc.old proc.new }
{
    let kind = match proc.heap.kind_of(&id) {
        None => return Err(StepFault::Wrong(Wrong::Object)),
        Some((kind, _tag)) => kind,
    };
    match proc.pending.take_apart(&mut proc.heap, &id) {
        Err(TakeApartFault::Absent) => Err(StepFault::Wrong(Wrong::Object)),
        Err(TakeApartFault::Borrowed(count)) => panic_borrowed(alloc, proc, code, kind, count),
        Err(TakeApartFault::OutOfMemory) => Err(StepFault::OutOfMemory),
        Ok(()) => match settle(proc, code) {
            Err(why) => Err(StepFault::Wrong(why)),
            Ok(()) => Ok(Stepped::Went),
        },
    }
}

/// The next drop is that of a borrow, which ends.
#[tactic(auto, unfolding(ink_code::specs::Machine::after, ink_code::specs::Objects::after_borrow, ink_base::specs::Objects::changed_object))]
fn drop_borrow(proc: &mut Proc, code: &Code, id: ObjectId) -> Result<Stepped, StepFault>
    requires { MayStep proc.old }
    ensures { IsStep (λ p. after (after_borrow id p.objects) (λ objects. dropped code.now objects (drop 1 p.pending) p)) result proc.old proc.new }
{
    if !proc.heap.count_down(&id) {
        return Err(StepFault::Wrong(Wrong::Object));
    }
    proc.pending.pop();
    match settle(proc, code) {
        Err(why) => Err(StepFault::Wrong(why)),
        Ok(()) => Ok(Stepped::Went),
    }
}

/// The next drop is made.
#[tactic(auto, unfolding(ink_code::specs::Drops::drop_next))]
pub fn drop_next(alloc: Global, proc: &mut Proc, code: &Code) -> Result<Stepped, StepFault>
    requires { MayStep proc.old }
    ensures { IsStep (λ p. first_drop code.now p.pending p) result proc.old proc.new }
{
    match proc.pending.first() {
        None => Err(StepFault::Wrong(Wrong::Absent)),
        Some(Value::Own(id)) => {
            let id = *id;
            drop_owner(alloc, proc, code, id)
        }
        Some(Value::Bor(id)) => {
            let id = *id;
            drop_borrow(proc, code, id)
        }
        Some(Value::Promise(future)) => Ok(Stepped::Wants(Request::BreakFuture {
            future: *future,
        })),
        Some(_) => {
            proc.pending.pop();
            match settle(proc, code) {
                Err(why) => Err(StepFault::Wrong(why)),
                Ok(()) => Ok(Stepped::Went),
            }
        }
    }
}

/// An object is given up, and its fields go to registers. It is a panic where a borrow of it is counted.
#[tactic(auto, unfolding(ink_code::specs::Makes::take_apart_step, ink_code::specs::Objects::object_at, ink_code::specs::Machine::given, ink_code::specs::Machine::after, ink_code::specs::Machine::when))]
pub fn take_apart_step(
    alloc: Global,
    proc: &mut Proc,
    code: &Code,
    next: u32,
    to: &[u32],
    object: u32,
) -> Result<Stepped, StepFault>
    requires { MayStep proc.old }
    ensures { IsStep (take_apart_step code.now next to.now object) result proc.old proc.new }
{
    let id = owned_object(register_value(&proc.frames, object)?)?;
    let kind = match proc.heap.kind_of(&id) {
        None => return Err(StepFault::Wrong(Wrong::Object)),
        Some((kind, _tag)) => kind,
    };
    match proc.heap.free(&id) {
        Err(FreeFault::Absent) => Err(StepFault::Wrong(Wrong::Object)),
        Err(FreeFault::Borrowed(count)) => panic_borrowed(alloc, proc, code, kind, count),
        Ok(fields) => {
            proc.frames.set(object, Value::Empty);
            proc.frames.put_out(to, fields)?;
            go_on(proc, next);
            Ok(Stepped::Went)
        }
    }
}
