//! The instructions that make objects.
ghost use Rattle.std.specs.Prelude.{◌<◌};
ghost use Rattle.ink_code.specs.Full.{most_made};
ghost use Rattle.ink_code.specs.Machine.{after};
ghost use Rattle.ink_code.specs.Makes.{make_array_step, make_step, makes};
ghost use Rattle.ink_code.specs.Process.{taken_out};
ghost use Rattle.ink_steps.specs.Answers.{IsStep, MayStep};

use crate::reads::go_on;
use crate::stepped::{StepFault, Stepped};
use ink_base::{Limit, Limits, Object, ObjectId, Value};
use ink_code::{ARRAY_KIND, Wrong};
use ink_proc::{Proc, put_over};
use ink_rows::texts::{full_text, passed_text};
use std::alloc::Global;

/// What a new object is, but for its fields: its type and its tag.
#[derive(Clone, Copy)]
struct Made {
    kind: u32,
    tag: u32,
}

/// A register gets the owner of a new object, to whose fields the values of registers are moved.
#[tactic(auto, unfolding(ink_code::specs::Makes::make_step, ink_code::specs::Machine::given, ink_code::specs::Machine::unless_text))]
pub fn make_step(
    alloc: Global,
    proc: &mut Proc,
    limits: &Limits,
    next: u32,
    to: u32,
    kind: u32,
    tag: u32,
    fields: &[u32],
) -> Result<Stepped, StepFault>
    requires { MayStep proc.old }
    ensures { IsStep (make_step limits.now next to kind tag fields.now) result proc.old proc.new }
{
    if !proc.frames.has(to) {
        return Err(StepFault::Wrong(Wrong::Absent));
    }
    if let Some(text) = full_text(alloc, limits, proc.heap.len(), proc.made)? {
        return Ok(Stepped::Panics(text));
    }
    put_made(alloc, proc, next, to, Made { kind, tag }, fields)
}

/// A register gets the owner of a new array, to which the values of registers are moved.
#[tactic(auto, unfolding(ink_code::specs::Makes::make_array_step, ink_code::specs::Machine::given, ink_code::specs::Machine::unless_text))]
pub fn make_array_step(
    alloc: Global,
    proc: &mut Proc,
    limits: &Limits,
    next: u32,
    to: u32,
    items: &[u32],
) -> Result<Stepped, StepFault>
    requires { MayStep proc.old }
    ensures { IsStep (make_array_step limits.now next to items.now) result proc.old proc.new }
{
    if !proc.frames.has(to) {
        return Err(StepFault::Wrong(Wrong::Absent));
    }
    if let Some(text) = full_text(alloc, limits, proc.heap.len(), proc.made)? {
        return Ok(Stepped::Panics(text));
    }
    if let Some(text) = passed_text(alloc, limits, Limit::Array, items.len() as u64)? {
        return Ok(Stepped::Panics(text));
    }
    let made = Made {
        kind: ARRAY_KIND,
        tag: 0,
    };
    put_made(alloc, proc, next, to, made, items)
}

/// A register gets the owner of a new object, where the limits allow one.
///
/// An object that has the new one's name already, as only a wrong code leaves one, gives way to it.
#[tactic(auto, unfolding(ink_code::specs::Machine::after))]
fn put_made(
    alloc: Global,
    proc: &mut Proc,
    next: u32,
    to: u32,
    made: Made,
    fields: &[u32],
) -> Result<Stepped, StepFault>
    requires ran { MayStep proc.old }
    requires made { proc.old.made < most_made }
    ensures { IsStep (λ p. after (taken_out fields.now p.frames) (λ parts. makes next to made.kind made.tag p parts)) result proc.old proc.new }
{
    let room = Vec::with_capacity(alloc, fields.len())?;
    proc.heap.reserve(1)?;
    let id = ObjectId {
        process: proc.number,
        serial: proc.made + 1,
    };
    let fields = proc.frames.take_out(room, fields)?;
    let Made { kind, tag } = made;
    let count = 0;
    put_over(
        &mut proc.heap,
        id,
        Object {
            kind,
            tag,
            fields,
            count,
        },
    );
    proc.made += 1;
    proc.frames.set(to, Value::Own(id));
    go_on(proc, next);
    Ok(Stepped::Went)
}
