//! The instructions that read and write the fields of objects.
ghost use Rattle.std.specs.Prelude.{◌≡◌, Err, IsOk, MatchResult, OnOk};
ghost use Rattle.ink_base.specs.Objects.{changed_object, with_field};
ghost use Rattle.ink_code.specs.Makes.{load_borrow_step, load_step, store_step, tag_step};
ghost use Rattle.ink_code.specs.Objects.{field_at};
ghost use Rattle.ink_steps.specs.Answers.{Finds, IsStep, MayStep};

use crate::moves::put_copy;
use crate::reads::{go_on, object_of, panic_with, register_copy, register_value};
use crate::stepped::{StepFault, Stepped};
use ink_base::{ObjectId, Value};
use ink_code::Wrong;
use ink_heap::Heap;
use ink_parcel::is_under;
use ink_proc::{Proc, borrow_of};
use std::alloc::Global;

/// A copy of the value in a field.
#[tactic(auto, unfolding(ink_code::specs::Objects::field_at))]
fn field_of(alloc: Global, heap: &Heap, id: &ObjectId, field: u32) -> Result<Value, StepFault>
    ensures { Finds (field_at heap.now.objects id.now field) result }
{
    if heap.size(id).is_none() {
        return Err(StepFault::Wrong(Wrong::Object));
    }
    match heap.read(id, u64::from(field)) {
        None => Err(StepFault::Wrong(Wrong::Absent)),
        Some(value) => match value.copy(alloc) {
            Err(_) => Err(StepFault::OutOfMemory),
            Ok(value) => Ok(value),
        },
    }
}

/// In which way there is no such field.
#[tactic(auto, unfolding(ink_code::specs::Objects::field_at))]
fn find_field(heap: &Heap, id: &ObjectId, field: u32) -> Result<(), Wrong>
    ensures { MatchResult result (λ _. IsOk (field_at heap.now.objects id.now field)) (λ why. field_at heap.now.objects id.now field ≡ Err why) }
{
    if heap.size(id).is_none() {
        return Err(Wrong::Object);
    }
    match heap.read(id, u64::from(field)) {
        None => Err(Wrong::Absent),
        Some(_) => Ok(()),
    }
}

/// Puts a value in a field, and gives the one that stood there.
#[tactic(auto, unfolding(ink_code::specs::Objects::field_at))]
fn write_field(heap: &mut Heap, id: &ObjectId, field: u32, value: Value) -> Result<Value, Wrong>
    ensures had { result ≡ field_at heap.old.objects id.now field }
    ensures after { OnOk result (heap.new.objects ≡ changed_object heap.old.objects id.now (with_field field value)) }
{
    if heap.size(id).is_none() {
        return Err(Wrong::Object);
    }
    match heap.write(id, u64::from(field), value) {
        Err(_) => Err(Wrong::Absent),
        Ok(had) => Ok(had),
    }
}

/// A register gets a copy of what a field holds.
#[tactic(auto, unfolding(ink_code::specs::Makes::load_step, ink_code::specs::Machine::given, ink_code::specs::Machine::after))]
pub fn load_step(
    alloc: Global,
    proc: &mut Proc,
    next: u32,
    to: u32,
    object: u32,
    field: u32,
) -> Result<Stepped, StepFault>
    requires { MayStep proc.old }
    ensures { IsStep (load_step next to object field) result proc.old proc.new }
{
    if !proc.frames.has(to) {
        return Err(StepFault::Wrong(Wrong::Absent));
    }
    let id = object_of(register_value(&proc.frames, object)?)?;
    let value = field_of(alloc, &proc.heap, &id, field)?;
    put_copy(proc, next, to, value)
}

/// A register gets a borrow of what a field holds.
#[tactic(auto, unfolding(ink_code::specs::Makes::load_borrow_step, ink_code::specs::Machine::given, ink_code::specs::Machine::after))]
pub fn load_borrow_step(
    alloc: Global,
    proc: &mut Proc,
    next: u32,
    to: u32,
    object: u32,
    field: u32,
) -> Result<Stepped, StepFault>
    requires { MayStep proc.old }
    ensures { IsStep (load_borrow_step next to object field) result proc.old proc.new }
{
    if !proc.frames.has(to) {
        return Err(StepFault::Wrong(Wrong::Absent));
    }
    let id = object_of(register_value(&proc.frames, object)?)?;
    let value = field_of(alloc, &proc.heap, &id, field)?;
    put_copy(proc, next, to, borrow_of(value))
}

/// A register gets the tag of an object.
#[tactic(auto, unfolding(ink_code::specs::Makes::tag_step, ink_code::specs::Objects::object_at, ink_code::specs::Machine::given, ink_code::specs::Machine::after))]
pub fn tag_step(
    alloc: Global,
    proc: &mut Proc,
    next: u32,
    to: u32,
    object: u32,
) -> Result<Stepped, StepFault>
    requires { MayStep proc.old }
    ensures { IsStep (tag_step next to object) result proc.old proc.new }
{
    if !proc.frames.has(to) {
        return Err(StepFault::Wrong(Wrong::Absent));
    }
    let named = register_copy(alloc, &proc.frames, object)?;
    let id = object_of(&named)?;
    match proc.heap.kind_of(&id) {
        None => Err(StepFault::Wrong(Wrong::Object)),
        Some((_kind, tag)) => {
            proc.frames.set(to, Value::Int(i64::from(tag)));
            go_on(proc, next);
            Ok(Stepped::Went)
        }
    }
}

/// A field gets a value, and a register gets the old one. It is a panic where the object is in the tree of the value.
#[tactic(auto, unfolding(ink_code::specs::Makes::store_step, ink_code::specs::Machine::given, ink_code::specs::Machine::after, ink_code::specs::Machine::when))]
pub fn store_step(
    alloc: Global,
    proc: &mut Proc,
    next: u32,
    to: u32,
    object: u32,
    field: u32,
    from: u32,
) -> Result<Stepped, StepFault>
    requires { MayStep proc.old }
    ensures { IsStep (store_step next to object field from) result proc.old proc.new }
{
    if !proc.frames.has(to) {
        return Err(StepFault::Wrong(Wrong::Absent));
    }
    let id = object_of(register_value(&proc.frames, object)?)?;
    let value = register_value(&proc.frames, from)?;
    find_field(&proc.heap, &id, field)?;
    if is_under(alloc, &proc.heap, &id, value)? {
        return panic_with(alloc, b"ownership cycle");
    }
    let value = proc.frames.take(from)?;
    let had = write_field(&mut proc.heap, &id, field, value)?;
    proc.frames.set(to, had);
    go_on(proc, next);
    Ok(Stepped::Went)
}
