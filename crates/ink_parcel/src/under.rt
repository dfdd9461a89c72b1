//! Whether an object is in the ownership tree of a value.
//!
//! The walk keeps the objects that it still has to look at on a stack, so that a tree may be as high as memory allows.
ghost use Rattle.std.specs.Prelude.{◌≡◌, ◌↔◌, List, [], ◌∷◌, ◌++◌, reverse, IfOk, IsOk, IsTrue, OnOk};
ghost use Rattle.ink_base.specs.declared.value.Value.{Value as OneValue};
ghost use Rattle.ink_base.specs.Objects.{fields_in};
ghost use Rattle.ink_base.specs.Tree.{InTree};
ghost use Rattle.ink_code.specs.Owned.{AreOwnedOnce};
ghost use Rattle.ink_code.specs.Trees as trees;
ghost use Rattle.ink_parcel.specs.Owners.{owner_in, owners};

use ink_base::{ObjectId, Value};
use ink_heap::Heap;
use std::alloc::{AllocError, Global};

/// Puts the object that a value owns on the stack.
fn push_owner(stack: &mut Vec<ObjectId>, value: &Value) -> Result<(), AllocError>
    ensures pushed { OnOk result (stack.new.items ≡ stack.old.items ++ owner_in value.now) }
    ensures succeeds { owner_in value.now ≡ [] → IsOk result }
{
    if let Value::Own(id) = value {
        stack.push(*id)?;
    }
    Ok(())
}

/// Puts the objects that the fields of an object own on the stack, that of the first field on top.
fn push_owners(stack: &mut Vec<ObjectId>, heap: &Heap, id: &ObjectId) -> Result<(), AllocError>
    ensures { OnOk result (stack.new.items ≡ stack.old.items ++ reverse (owners (fields_in heap.now.objects id.now))) }
{
    let mut index = heap.size(id).unwrap_or(0);
    while index > 0 {
        index -= 1;
        if let Some(value) = heap.read(id, index) {
            push_owner(stack, value)?;
        }
    }
    Ok(())
}

/// Whether an object is in the ownership tree of a value.
///
/// `true` is right of any heap. `false` is right where each object is owned once, by the value, by one of the others that
/// are held beside it, or by a field: the walk down from the value looks at no more objects than the heap has, and so
/// ends on any heap. The error says that there was no memory for the list of what is still to look at.
pub fn is_under(
    alloc: Global,
    heap: &Heap,
    id: &ObjectId,
    value: &Value,
) -> Result<bool, AllocError>
    ensures found { IfOk result (λ found. found ≡ trees.is_under id.now value.now heap.now.objects) }
    ensures tree { IfOk result (λ found. IsTrue found → InTree (fields_in heap.now.objects) (value.now ∷ []) id.now) }
    ensures exact { (others : List OneValue) → AreOwnedOnce (value.now ∷ others) heap.now.objects → IfOk result (λ found. IsTrue found ↔ InTree (fields_in heap.now.objects) (value.now ∷ []) id.now) }
    ensures succeeds { owner_in value.now ≡ [] → IsOk result }
{
    let mut stack = Vec::new(alloc);
    push_owner(&mut stack, value)?;
    for _ in 0..heap.len() {
        let next = match stack.pop() {
            None => return Ok(false),
            Some(next) => next,
        };
        if next.compare(id).is_eq() {
            return Ok(true);
        }
        push_owners(&mut stack, heap, &next)?;
    }
    Ok(false)
}
