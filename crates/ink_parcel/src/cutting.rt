//! Cutting the ownership tree of values out of a heap.
ghost use Rattle.std.specs.Prelude.{◌≡◌, ◌≤◌, List, ◌++◌, Result, IfErr, IfOk, OnErr, OnOk};
ghost use Rattle.ink_base.specs.declared.value.Value.{Value as OneValue};
ghost use Rattle.ink_code.specs.Owned.{AreOwnedOnce};
ghost use Rattle.ink_code.specs.Trees.{parted_of};
ghost use Rattle.ink_code.specs.declared.wrong.Wrong.TheVariants as Wrong;
ghost use Rattle.ink_parcel.specs.Parts.{HoldsTree, Splits};
ghost use Rattle.ink_parcel.specs.Walk.{OnAbsent, values_in};

use crate::fault::CutFault;
use crate::joining::put_all;
use crate::parcel::Parcel;
use crate::tree::move_tree;
use ink_base::{Items, Value};
use ink_heap::Heap;
use std::alloc::Global;

/// Moves the objects of the ownership tree of some values out of a heap, with their fields and counts.
///
/// The values name their objects by owners, and so do the fields of these. The objects are taken one after another:
/// first those of the values, and then those of the fields of the objects that were taken, in that order.
///
/// In the parcel each object is owned once, by one of its values or by one field. Where before each object was owned once,
/// by the values and others that are held, each of the objects that stay still is, by the others.
///
/// `Absent` where an object isn't in the heap at its turn, since the heap never had it or since it is owned twice, and
/// only there; `OutOfMemory` where there is no memory for the next one. Then all objects stay and the values come back.
pub fn cut(alloc: Global, heap: &mut Heap, values: Items<Value>) -> Result<Parcel, CutFault>
    ensures values { IfOk result (λ parcel. parcel.values ≡ values) }
    ensures tree { IfOk result (λ parcel. HoldsTree heap.old.objects values parcel.objects) }
    ensures objects { IfOk result (λ parcel. Splits heap.old.objects heap.new.objects parcel.objects) }
    ensures room { heap.old.spare ≤ heap.new.spare }
    ensures parted { IfOk result (λ parcel. parted_of values heap.old.objects ≡ Result.Ok (record { left = heap.new.objects; taken = parcel.objects })) }
    ensures owned { IfOk result (λ parcel. AreOwnedOnce parcel.values parcel.objects) }
    ensures left { (others : List OneValue) → AreOwnedOnce (values ++ others) heap.old.objects → OnOk result (AreOwnedOnce others heap.new.objects) }
    ensures absent { IfErr result (λ fault. OnAbsent fault (parted_of values heap.old.objects ≡ Result.Err Wrong.Object)) }
    ensures back { IfErr result (λ fault. values_in fault ≡ values) }
    ensures err { OnErr result (heap.new.objects ≡ heap.old.objects) }
{
    let mut objects = Vec::new(alloc);
    match move_tree(heap, &mut objects, values.as_slice()) {
        Ok(()) => Ok(Parcel { values, objects }),
        Err(why) => {
            put_all(heap, objects);
            Err(why.with_values(values))
        }
    }
}
