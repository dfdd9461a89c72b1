//! The rows of Option, and that which makes a Stdout.
ghost use Rattle.std.specs.Prelude.{◌≡◌, [], slice_get};
ghost use Rattle.std.specs.FinMap as map;
ghost use Rattle.ink_base.specs.Panics.{drop_text};
ghost use Rattle.ink_code.specs.Machine.{given};
ghost use Rattle.ink_code.specs.Kinds.{option_kind};
ghost use Rattle.ink_code.specs.Objects.{owned_by};
ghost use Rattle.ink_code.specs.OptionRows.{as_ref_row, none_row, some_row, stdout_row, value_row};
ghost use Rattle.ink_code.specs.Rows.{fails};
ghost use Rattle.ink_proc.specs.State.{state_of};
ghost use Rattle.ink_object_rows.specs.Answers.{Comes, Does, Finds, RowAnswers};
ghost use Rattle.ink_object_rows.specs.Making.{lent_value, value_given};

use crate::making::{give_lent, give_made};
use crate::receiver::{end_borrow, lone_receiver};
use ink_base::{Items, Limits, ObjectId, Text, Value};
use ink_code::{Code, OPTION_KIND, SOME_TAG, STDOUT_KIND, Wrong};
use ink_heap::Heap;
use ink_proc::{Proc, borrow_of};
use ink_rows::operands::single;
use ink_rows::texts::{drop_text, full_text};
use ink_rows::{Computed, RowFault};
use std::alloc::Global;

/// Whether an Option has a value.
#[tactic(auto, using(crate::proofs::RowLemmas::reads), unfolding(ink_code::specs::Machine::after))]
pub fn some_row(proc: &mut Proc, values: &[Value]) -> Result<Computed, RowFault>
    ensures answer { Does some_row result proc.old proc.new values.now values.now }
    ensures ran { proc.new.ran ≡ proc.old.ran }
{
    let id = lone_receiver(&proc.heap, OPTION_KIND, values)?;
    match proc.heap.kind_of(&id) {
        None => Err(RowFault::Wrong(Wrong::Object)),
        Some((_kind, tag)) => {
            end_borrow(&mut proc.heap, &id);
            Ok(Computed::Gives(Value::Bool(tag == SOME_TAG)))
        }
    }
}

/// Whether an Option has no value.
#[tactic(auto, using(crate::proofs::RowLemmas::reads), unfolding(ink_code::specs::Machine::after))]
pub fn none_row(proc: &mut Proc, values: &[Value]) -> Result<Computed, RowFault>
    ensures answer { Does none_row result proc.old proc.new values.now values.now }
    ensures ran { proc.new.ran ≡ proc.old.ran }
{
    let id = lone_receiver(&proc.heap, OPTION_KIND, values)?;
    match proc.heap.kind_of(&id) {
        None => Err(RowFault::Wrong(Wrong::Object)),
        Some((_kind, tag)) => {
            end_borrow(&mut proc.heap, &id);
            Ok(Computed::Gives(Value::Bool(tag != SOME_TAG)))
        }
    }
}

/// A new Stdout is given.
#[tactic(auto, using(crate::proofs::RowLemmas::makes), unfolding(ink_code::specs::Machine::after, ink_code::specs::Rows::unless_fails))]
pub fn stdout_row(
    alloc: Global,
    proc: &mut Proc,
    limits: &Limits,
    values: &[Value],
) -> Result<Computed, RowFault>
    ensures answer { Does (stdout_row limits.now) result proc.old proc.new values.now values.now }
    ensures ran { proc.new.ran ≡ proc.old.ran }
{
    let None = values.split_first() else {
        return Err(RowFault::Wrong(Wrong::Absent));
    };
    if let Some(text) = full_text(alloc, limits, proc.heap.len(), proc.made)? {
        return Ok(Computed::Raises(text));
    }
    proc.heap.reserve(1)?;
    let made = give_made(proc, STDOUT_KIND, 0, Items::new(alloc));
    Ok(Computed::Gives(made))
}

/// A copy of a borrow of the value of an Option, where it has one.
#[tactic(auto, unfolding(crate::specs::Making::lent_value, ink_code::specs::Machine::given))]
fn lent_value(alloc: Global, heap: &Heap, id: &ObjectId) -> Result<Option<Value>, RowFault>
    ensures { Finds (lent_value (map.get heap.now.objects id.now)) result }
{
    match heap.kind_of(id) {
        None => return Err(RowFault::Wrong(Wrong::Object)),
        Some((_kind, tag)) => {
            if tag != SOME_TAG {
                return Ok(None);
            }
        }
    }
    match heap.read(id, 0) {
        None => Err(RowFault::Wrong(Wrong::Absent)),
        Some(value) => Ok(Some(borrow_of(value.copy(alloc)?))),
    }
}

/// A borrow of the value is given in a new Option, or a new Option of none.
///
/// A value of which 2^62 borrows are counted is answered as out of memory.
#[tactic(auto, using(crate::proofs::RowLemmas::makes), unfolding(ink_code::specs::Machine::after, ink_code::specs::Rows::unless_fails))]
pub fn as_ref_row(
    alloc: Global,
    proc: &mut Proc,
    limits: &Limits,
    values: &[Value],
) -> Result<Computed, RowFault>
    ensures answer { Does (as_ref_row limits.now) result proc.old proc.new values.now values.now }
    ensures ran { proc.new.ran ≡ proc.old.ran }
{
    let id = lone_receiver(&proc.heap, OPTION_KIND, values)?;
    if let Some(text) = full_text(alloc, limits, proc.heap.len(), proc.made)? {
        return Ok(Computed::Raises(text));
    }
    let item = lent_value(alloc, &proc.heap, &id)?;
    give_lent(alloc, proc, &id, item)
}

/// The name of the object that a value owns.
fn owned_by(value: &Value) -> Result<ObjectId, Wrong>
    ensures { result ≡ owned_by value.now }
{
    match value {
        Value::Own(id) => Ok(*id),
        _ => Err(Wrong::Kind),
    }
}

/// The panic where an Option is given up that so many borrows are counted of.
#[tactic(auto, unfolding(ink_code::specs::Machine::given))]
fn panic_borrowed(alloc: Global, proc: &Proc, code: &Code, count: u64) -> Result<Computed, RowFault>
    ensures { RowAnswers (given Wrong.Absent (slice_get code.now.kinds option_kind) (λ name. fails (drop_text name count) (state_of proc.now))) result (state_of proc.now) (state_of proc.now) [] [] }
{
    match code.kinds.get(u64::from(OPTION_KIND)) {
        None => Err(RowFault::Wrong(Wrong::Absent)),
        Some(name) => Ok(Computed::Raises(drop_text(alloc, name, count)?)),
    }
}

/// The value of an Option, which is given up with it.
#[tactic(auto, unfolding(ink_code::specs::Machine::given))]
fn take_value(proc: &mut Proc, id: &ObjectId) -> Result<Value, Wrong>
    ensures answer { Comes (value_given (map.get proc.old.heap.objects id.now) id.now (state_of proc.old)) result (state_of proc.new) }
    ensures ran { proc.new.ran ≡ proc.old.ran }
{
    match proc.heap.take_out(id) {
        None => Err(Wrong::Object),
        Some(mut object) => {
            if object.fields.len() == 0 {
                return Err(Wrong::Absent);
            }
            Ok(object.fields.set(0, Value::Empty))
        }
    }
}

/// The Option is given up, and its value is given: a panic where a borrow of it is counted, and else where it has none.
#[tactic(auto, unfolding(ink_code::specs::OptionRows::value_row, ink_code::specs::Machine::after, ink_code::specs::Machine::needs, ink_code::specs::Machine::when, ink_code::specs::Objects::object_at))]
pub fn value_row(
    alloc: Global,
    proc: &mut Proc,
    code: &Code,
    values: &[Value],
) -> Result<Computed, RowFault>
    ensures answer { Does (value_row code.now) result proc.old proc.new values.now values.now }
    ensures ran { proc.new.ran ≡ proc.old.ran }
{
    let id = owned_by(single(values)?)?;
    let tag = match proc.heap.kind_of(&id) {
        None => return Err(RowFault::Wrong(Wrong::Object)),
        Some((kind, tag)) => {
            if kind != OPTION_KIND {
                return Err(RowFault::Wrong(Wrong::Kind));
            }
            tag
        }
    };
    match proc.heap.count(&id) {
        None => Err(RowFault::Wrong(Wrong::Object)),
        Some(0) => {
            if tag != SOME_TAG {
                return Ok(Computed::Raises(Text::of(alloc, b"option is None")?));
            }
            Ok(Computed::Gives(take_value(proc, &id)?))
        }
        Some(count) => panic_borrowed(alloc, proc, code, count),
    }
}
