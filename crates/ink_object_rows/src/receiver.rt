//! The receiver of a row, which is a borrow of an object of its type.
ghost use Rattle.std.specs.Prelude.{◌≡◌, [], true, Err, MatchResult};
ghost use Rattle.std.specs.FinMap.{get};
ghost use Rattle.ink_base.specs.Objects.{changed_object, counted_down, is_counted};
ghost use Rattle.ink_object_rows.specs.Receiver.{received, received_alone, Receives};

use ink_base::{ObjectId, Value};
use ink_code::Wrong;
use ink_heap::Heap;

/// The name of the object that the receiver borrows, and the operands behind it.
#[tactic(auto, unfolding(crate::specs::Receiver::received, ink_code::specs::Machine::after, ink_code::specs::Machine::needs, ink_code::specs::Objects::object_at, ink_code::specs::Objects::after_borrow))]
pub(crate) fn receiver<'a>(
    heap: &Heap,
    kind: u32,
    values: &'a [Value],
) -> Result<(ObjectId, &'a [Value]), Wrong>
    ensures { MatchResult result
        (λ had. Receives (received kind values.now heap.now.objects) had.0 had.1.now values.now heap.now.objects)
        (λ why. received kind values.now heap.now.objects ≡ Err why) }
{
    let (id, operands) = match values.split_first() {
        None => return Err(Wrong::Absent),
        Some((Value::Bor(id), operands)) => (*id, operands),
        Some(_) => return Err(Wrong::Kind),
    };
    match heap.kind_of(&id) {
        None => return Err(Wrong::Object),
        Some((found, _)) => {
            if found != kind {
                return Err(Wrong::Kind);
            }
        }
    }
    match heap.count(&id) {
        None => Err(Wrong::Object),
        Some(count) => {
            if count == 0 {
                return Err(Wrong::Object);
            }
            Ok((id, operands))
        }
    }
}

/// The same, where there are no operands behind it.
#[tactic(auto, using(crate::proofs::ReceiverLemmas::alone), unfolding(crate::specs::Receiver::received_alone, ink_code::specs::Machine::after))]
pub(crate) fn lone_receiver(heap: &Heap, kind: u32, values: &[Value]) -> Result<ObjectId, Wrong>
    ensures { MatchResult result
        (λ id. Receives (received_alone kind values.now heap.now.objects) id [] values.now heap.now.objects)
        (λ why. received_alone kind values.now heap.now.objects ≡ Err why) }
{
    let (id, operands) = receiver(heap, kind, values)?;
    match operands.split_first() {
        None => Ok(id),
        Some(_) => Err(Wrong::Absent),
    }
}

/// The borrow ends, which is counted.
pub(crate) fn end_borrow(heap: &mut Heap, id: &ObjectId)
    requires { is_counted (get heap.old.objects id.now) ≡ true }
    ensures { heap.new ≡ record heap.old { objects = changed_object heap.old.objects id.now counted_down } }
{
    heap.count_down(id);
}
