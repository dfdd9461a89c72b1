//! The rows of Array. The receiver's borrow ends with the row.
ghost use Rattle.std.specs.Prelude.{◌≡◌};
ghost use Rattle.ink_code.specs.ArrayRows.{clear_row, empty_row, get_row, pop_row, size_row};
ghost use Rattle.ink_object_rows.specs.Answers.{Does};

use crate::items::{lent_item, pop_item};
use crate::making::{give_lent, give_option};
use crate::receiver::{end_borrow, lone_receiver, receiver};
use ink_base::{Items, Limits, Value};
use ink_code::{ARRAY_KIND, Wrong};
use ink_proc::{Proc, put_over};
use ink_rows::operands::{int_of, single};
use ink_rows::texts::full_text;
use ink_rows::{Computed, RowFault};
use std::alloc::Global;
use std::mem;

/// How many items an array has. An array of more than the greatest Int is answered as out of memory.
#[tactic(auto, using(crate::proofs::RowLemmas::reads), unfolding(ink_code::specs::Machine::after))]
pub fn size_row(proc: &mut Proc, values: &[Value]) -> Result<Computed, RowFault>
    ensures answer { Does size_row result proc.old proc.new values.now values.now }
    ensures ran { proc.new.ran ≡ proc.old.ran }
{
    let id = lone_receiver(&proc.heap, ARRAY_KIND, values)?;
    match proc.heap.size(&id) {
        None => Err(RowFault::Wrong(Wrong::Object)),
        Some(size) => {
            let Ok(number) = i64::try_from(size) else {
                return Err(RowFault::OutOfMemory);
            };
            end_borrow(&mut proc.heap, &id);
            Ok(Computed::Gives(Value::Int(number)))
        }
    }
}

/// Whether an array has no items.
#[tactic(auto, using(crate::proofs::RowLemmas::reads), unfolding(ink_code::specs::Machine::after))]
pub fn empty_row(proc: &mut Proc, values: &[Value]) -> Result<Computed, RowFault>
    ensures answer { Does empty_row result proc.old proc.new values.now values.now }
    ensures ran { proc.new.ran ≡ proc.old.ran }
{
    let id = lone_receiver(&proc.heap, ARRAY_KIND, values)?;
    match proc.heap.size(&id) {
        None => Err(RowFault::Wrong(Wrong::Object)),
        Some(size) => {
            end_borrow(&mut proc.heap, &id);
            Ok(Computed::Gives(Value::Bool(size == 0)))
        }
    }
}

/// The last item is taken off and given in an Option.
#[tactic(auto, using(crate::proofs::RowLemmas::pops), unfolding(ink_code::specs::Machine::after, ink_code::specs::Rows::unless_fails, crate::specs::Items::after_row))]
pub fn pop_row(
    alloc: Global,
    proc: &mut Proc,
    limits: &Limits,
    values: &[Value],
) -> Result<Computed, RowFault>
    ensures answer { Does (pop_row limits.now) result proc.old proc.new values.now values.now }
    ensures ran { proc.new.ran ≡ proc.old.ran }
{
    let id = lone_receiver(&proc.heap, ARRAY_KIND, values)?;
    if let Some(text) = full_text(alloc, limits, proc.heap.len(), proc.made)? {
        return Ok(Computed::Raises(text));
    }
    let room = Vec::with_capacity(alloc, 1)?;
    proc.heap.reserve(1)?;
    let item = pop_item(&mut proc.heap, &id);
    Ok(Computed::Gives(give_option(proc, room, item)))
}

/// A borrow of an item is given in a new Option, or a new Option of none where the index names no item.
///
/// An item of which 2^62 borrows are counted is answered as out of memory.
#[tactic(auto, using(crate::proofs::RowLemmas::gets), unfolding(ink_code::specs::Machine::after, ink_code::specs::Rows::unless_fails))]
pub fn get_row(
    alloc: Global,
    proc: &mut Proc,
    limits: &Limits,
    values: &[Value],
) -> Result<Computed, RowFault>
    ensures answer { Does (get_row limits.now) result proc.old proc.new values.now values.now }
    ensures ran { proc.new.ran ≡ proc.old.ran }
{
    let (id, operands) = receiver(&proc.heap, ARRAY_KIND, values)?;
    let index = int_of(single(operands)?)?;
    if let Some(text) = full_text(alloc, limits, proc.heap.len(), proc.made)? {
        return Ok(Computed::Raises(text));
    }
    let item = lent_item(alloc, &proc.heap, &id, index)?;
    give_lent(alloc, proc, &id, item)
}

/// All items are taken off, and wait to be dropped, the first in front.
#[tactic(auto, using(crate::proofs::RowLemmas::clears), unfolding(ink_code::specs::Machine::after, crate::specs::Items::after_row))]
pub fn clear_row(alloc: Global, proc: &mut Proc, values: &[Value]) -> Result<Computed, RowFault>
    ensures answer { Does clear_row result proc.old proc.new values.now values.now }
    ensures ran { proc.new.ran ≡ proc.old.ran }
{
    let id = lone_receiver(&proc.heap, ARRAY_KIND, values)?;
    let Some(mut object) = proc.heap.take_out(&id) else {
        return Err(RowFault::Wrong(Wrong::Object));
    };
    let fields = mem::replace(&mut object.fields, Items::new(alloc));
    match proc.pending.push_all(fields) {
        Err(fields) => {
            object.fields = fields;
            put_over(&mut proc.heap, id, object);
            Err(RowFault::OutOfMemory)
        }
        Ok(()) => {
            object.count -= 1;
            put_over(&mut proc.heap, id, object);
            Ok(Computed::Gives(Value::Nil))
        }
    }
}
