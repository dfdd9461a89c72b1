//! Moving the objects of an ownership tree out of a heap, behind one another.
//!
//! The objects that were moved are the list of work: each is looked at once, in the order in which they were moved. An
//! object that is named again isn't there any more, and the tree is refused.
ghost use Rattle.std.specs.Prelude.{◌≡◌, ◌<◌, [], ◌∷◌, length, Option, IfNone, IfSome, OnOk, Contains};
ghost use Rattle.std.specs.FinMap.{get};
ghost use Rattle.ink_base.specs.Tree.{InTree};
ghost use Rattle.ink_base.specs.declared.value.Value.TheVariants.{Own};
ghost use Rattle.ink_base.specs.Objects.{fields_in};
ghost use Rattle.ink_parcel.specs.Moves.{AreGone, HaveBeenLookedAt, Moves, OwnedAt, fields_at};
ghost use Rattle.ink_parcel.specs.Walk.{IsParted, Walks};

use crate::fault::MoveFault;
use ink_base::{Object, ObjectId, Value};
use ink_heap::Heap;

/// Moves one object behind the others.
fn move_object(
    heap: &mut Heap,
    moved: &mut Vec<(ObjectId, Object)>,
    id: ObjectId,
) -> Result<(), MoveFault>
    ensures moves { Moves (λ other. other ≡ id) heap.old heap.new moved.old.items moved.new.items }
    ensures gone { OnOk result (get heap.new.objects id ≡ Option.None) }
    ensures walks { Walks result (Own id ∷ []) heap.old heap.new moved.old.items moved.new.items }
{
    if let Err(_) = moved.reserve(1) {
        return Err(MoveFault::OutOfMemory);
    }
    match heap.take_out(&id) {
        None => Err(MoveFault::Absent),
        Some(object) => {
            moved.push_reserved((id, object));
            Ok(())
        }
    }
}

/// Moves the objects that some values own.
fn move_owned(
    heap: &mut Heap,
    moved: &mut Vec<(ObjectId, Object)>,
    values: &[Value],
) -> Result<(), MoveFault>
    ensures moves { Moves (λ id. Contains values.now (Own id)) heap.old heap.new moved.old.items moved.new.items }
    ensures gone { OnOk result (AreGone values.now heap.new.objects) }
    ensures walks { Walks result values.now heap.old heap.new moved.old.items moved.new.items }
{
    for value in values {
        if let Value::Own(id) = value {
            move_object(heap, moved, *id)?;
        }
    }
    Ok(())
}

/// The object that a field of a moved object owns.
fn owned_at(moved: &[(ObjectId, Object)], index: usize, field: u64) -> Option<ObjectId>
    requires { index < length moved.now }
    ensures { OwnedAt result (fields_at moved.now index) field }
{
    match moved[index].1.fields.get(field) {
        Some(Value::Own(id)) => Some(*id),
        _ => None,
    }
}

/// Moves the objects that the fields of a moved object own.
fn move_fields(
    heap: &mut Heap,
    moved: &mut Vec<(ObjectId, Object)>,
    index: usize,
) -> Result<(), MoveFault>
    requires { index < length moved.old.items }
    ensures moves { Moves (λ id. Contains (fields_at moved.old.items index) (Own id)) heap.old heap.new moved.old.items moved.new.items }
    ensures gone { OnOk result (AreGone (fields_at moved.old.items index) heap.new.objects) }
    ensures walks { Walks result (fields_at moved.old.items index) heap.old heap.new moved.old.items moved.new.items }
{
    for field in 0..moved[index].1.fields.len() {
        if let Some(id) = owned_at(moved, index, field) {
            move_object(heap, moved, id)?;
        }
    }
    Ok(())
}

/// Moves the objects of the ownership tree of some values, where none were moved before.
pub(crate) fn move_tree(
    heap: &mut Heap,
    moved: &mut Vec<(ObjectId, Object)>,
    values: &[Value],
) -> Result<(), MoveFault>
    requires { moved.old.items ≡ [] }
    ensures moves { Moves (InTree (fields_in heap.old.objects) values.now) heap.old heap.new [] moved.new.items }
    ensures roots { OnOk result (AreGone values.now heap.new.objects) }
    ensures parted { IsParted result values.now heap.old.objects heap.new.objects moved.new.items }
    ensures below { OnOk result (HaveBeenLookedAt moved.new.items (length moved.new.items) heap.new.objects) }
{
    move_owned(heap, moved, values)?;
    let mut next = 0;
    while next < moved.len() {
        move_fields(heap, moved, next)?;
        next += 1;
    }
    Ok(())
}
