//! A process as it begins.
ghost use Rattle.std.specs.Prelude.{◌≡◌, ◌≤◌, IfErr, IfOk};
ghost use Rattle.std.specs.FinMap.{empty, insert, len};
ghost use Rattle.ink_code.specs.Runs.{begun, no_parcel};
ghost use Rattle.ink_post.specs.Starting.{IsFreshFor, blank, filled};
ghost use Rattle.ink_proc.specs.State.{state_of};

use ink_base::{Items, Object, ObjectId};
use ink_heap::Heap;
use ink_parcel::{Parcel, cut, join};
use ink_proc::{Frames, Pending, Proc};
use std::alloc::{AllocError, Global};

/// A parcel with nothing in it.
#[tactic(auto, unfolding(ink_code::specs::Trees::parted_of, ink_code::specs::Trees::parted_by))]
pub(crate) fn no_parcel(alloc: Global) -> Result<Parcel, AllocError>
    ensures { IfOk result (λ parcel. parcel ≡ no_parcel) }
{
    let mut heap = Heap::new(alloc);
    match cut(alloc, &mut heap, Items::new(alloc)) {
        Ok(parcel) => Ok(parcel),
        Err(_) => Err(AllocError),
    }
}

/// The heap of a process that has its state alone, without fields yet, and room for so many objects more.
#[tactic(auto, using(crate::proofs::Starts::none_in_empty))]
fn first_heap(alloc: Global, state: ObjectId, kind: u32, count: u64) -> Result<Heap, AllocError>
    ensures state { IfOk result (λ heap. heap.objects ≡ insert empty state (blank kind)) }
    ensures room { IfOk result (λ heap. count ≤ heap.spare) }
{
    let mut heap = Heap::new(alloc);
    heap.reserve(1)?;
    let object = Object {
        kind,
        tag: 0,
        fields: Items::new(alloc),
        count: 0,
    };
    if heap.put_in(state, object).is_err() {
        unreachable!();
    }
    heap.reserve(count)?;
    Ok(heap)
}

/// The objects of a parcel go to a heap that has room for them, and its values become the fields of the state there.
fn fill(heap: &mut Heap, state: ObjectId, kind: u32, fields: Parcel)
    requires alone { heap.old.objects ≡ insert empty state (blank kind) }
    requires room { len fields.objects ≤ heap.old.spare }
    requires fresh { IsFreshFor state.process fields.objects }
    ensures { heap.new.objects ≡ insert fields.objects state (filled kind fields.values) }
{
    let Ok(values) = join(heap, fields) else {
        unreachable!()
    };
    let Some(_) = heap.take_out(&state) else {
        unreachable!()
    };
    let object = Object {
        kind,
        tag: 0,
        fields: values,
        count: 0,
    };
    match heap.put_in(state, object) {
        Ok(()) => {}
        Err(_) => unreachable!(),
    }
}

/// A process that waits for its first message, with these fields of its state. Without memory they come back.
pub(crate) fn started(alloc: Global, number: u32, kind: u32, fields: Parcel) -> Result<Proc, Parcel>
    requires { IsFreshFor number fields.objects }
    ensures starts { IfOk result (λ proc. state_of proc ≡ begun number kind fields) }
    ensures back { IfErr result (λ back. back ≡ fields) }
{
    let state = ObjectId {
        process: number,
        serial: 1,
    };
    let Ok(frames) = Frames::with_capacity(alloc, 1) else {
        return Err(fields);
    };
    let Ok(mut heap) = first_heap(alloc, state, kind, fields.object_count()) else {
        return Err(fields);
    };
    fill(&mut heap, state, kind, fields);
    Ok(Proc {
        number,
        kind,
        made: 1,
        frames,
        heap,
        pending: Pending::new(alloc),
        ran: 0,
        room: Vec::new(alloc),
    })
}
