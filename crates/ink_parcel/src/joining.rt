//! Putting objects into a heap.
ghost use Rattle.std.specs.Prelude.{◌≡◌, ◌+◌, ◌≤◌, length, Option, IfErr, IfOk, IsOk, IsSome, OnErr, OnOk};
ghost use Rattle.std.specs.FinMap.{len};
ghost use Rattle.ink_code.specs.Trees.{joined};
ghost use Rattle.ink_parcel.specs.Moves.{CanBePut, SplitsOff};
ghost use Rattle.ink_parcel.specs.Parts.{AreApartFrom, Splits};

use crate::fault::JoinFault;
use crate::parcel::Parcel;
use ink_base::{Items, Object, ObjectId, Value};
use ink_heap::Heap;

/// Puts the objects of a parcel into a heap that has none of their names, and gives the values of the parcel.
///
/// No memory is wanted where the heap has room for them. Without memory the heap stays and the parcel comes back.
pub fn join(heap: &mut Heap, parcel: Parcel) -> Result<Items<Value>, JoinFault>
    requires { AreApartFrom heap.old.objects parcel.objects }
    ensures values { IfOk result (λ values. values ≡ parcel.values) }
    ensures objects { OnOk result (Splits heap.new.objects heap.old.objects parcel.objects) }
    ensures joined { OnOk result (heap.new.objects ≡ joined heap.old.objects parcel) }
    ensures succeeds { len parcel.objects ≤ heap.old.spare → IsOk result }
    ensures back { IfErr result (λ fault. fault ≡ JoinFault.OutOfMemory parcel) }
    ensures err { OnErr result (heap.new ≡ heap.old) }
{
    if let Err(_) = heap.reserve(parcel.objects.len() as u64) {
        return Err(JoinFault::OutOfMemory(parcel));
    }
    let Parcel { values, objects } = parcel;
    put_all(heap, objects);
    Ok(values)
}

/// Puts objects into a heap that has room for them and none of their names.
pub(crate) fn put_all(heap: &mut Heap, mut objects: Vec<(ObjectId, Object)>)
    requires names { CanBePut heap.old.objects objects.items }
    requires room { length objects.items ≤ heap.old.spare }
    ensures objects { SplitsOff heap.new.objects heap.old.objects objects.items }
    ensures room { heap.old.spare ≤ heap.new.spare + length objects.items }
{
    while let Some((id, object)) = objects.pop() {
        if let Err(_) = heap.put_in(id, object) {
            unreachable!();
        }
    }
}
