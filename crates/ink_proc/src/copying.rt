//! Copies of values, of which borrows are counted.
ghost use Rattle.std.specs.Prelude.{◌≡◌, IsTrue};
ghost use Rattle.ink_code.specs.Objects.{after_copy, lent};
ghost use Rattle.ink_proc.specs.Answers.{IsPutAnswer};
ghost use Rattle.ink_proc.specs.Copying.{HasRoom};

use ink_base::Value;
use ink_code::Wrong;
use ink_heap::{Heap, MOST_BORROWS};

/// What a borrow of a value is: an owner gives a borrow, and any other gives itself.
pub fn borrow_of(value: Value) -> Value
    ensures { result ≡ lent value }
{
    match value {
        Value::Own(id) => Value::Bor(id),
        value => value,
    }
}

/// Whether a copy of a value can be counted, where it is a borrow.
#[tactic(auto, unfolding(crate::specs::Copying::HasRoom))]
pub fn has_room(heap: &Heap, value: &Value) -> bool
    ensures { IsTrue result → HasRoom value.now heap.now.objects }
{
    match value {
        Value::Bor(id) => match heap.count(id) {
            None => true,
            Some(count) => count < MOST_BORROWS,
        },
        _ => true,
    }
}

/// Counts the copy that was made of a value, where it is a borrow.
#[tactic(auto, unfolding(crate::specs::Copying::HasRoom, ink_code::specs::Objects::after_copy, ink_base::specs::Objects::changed_object))]
pub fn count_copy(heap: &mut Heap, value: &Value) -> Result<(), Wrong>
    requires { HasRoom value.now heap.old.objects }
    ensures copied { IsPutAnswer result heap.new.objects (after_copy value.now heap.old.objects) }
    ensures room { heap.new.spare ≡ heap.old.spare }
{
    match value {
        Value::Bor(id) => match heap.count(id) {
            None => Err(Wrong::Object),
            Some(_) => {
                heap.count_up(id);
                Ok(())
            }
        },
        Value::Own(_) | Value::Future(_) | Value::Promise(_) => Err(Wrong::Kind),
        Value::Empty => Err(Wrong::Empty),
        _ => Ok(()),
    }
}
