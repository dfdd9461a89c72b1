//! Putting an object under a name that may be taken.
ghost use Rattle.std.specs.Prelude.{◌≡◌, ◌≤◌};
ghost use Rattle.std.specs.FinMap.{insert};

use ink_base::{Object, ObjectId};
use ink_heap::Heap;

/// Puts an object under a name, in the place of the one that has it. There has to be room for it.
#[tactic(auto, using(crate::proofs::PuttingLemmas::putting))]
pub fn put_over(heap: &mut Heap, id: ObjectId, object: Object)
    requires { 1 ≤ heap.old.spare }
    ensures { heap.new.objects ≡ insert heap.old.objects id object }
{
    let Err(back) = heap.put_in(id, object) else {
        return;
    };
    let _ = heap.take_out(&id);
    match heap.put_in(id, back) {
        Ok(()) => {}
        Err(_) => unreachable!(),
    }
}
