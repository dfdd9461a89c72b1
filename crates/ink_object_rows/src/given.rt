//! What a row is given that puts an item in an array.
ghost use Rattle.std.specs.Prelude.{◌≡◌, Err, MatchResult};
ghost use Rattle.ink_code.specs.Kinds.{array_kind};
ghost use Rattle.ink_code.specs.Rows.{single};
ghost use Rattle.ink_code.specs.Machine.{after};
ghost use Rattle.ink_object_rows.specs.Given.{IsItemGiven, IsPlaceGiven};
ghost use Rattle.ink_object_rows.specs.Receiver.{received};
ghost use Rattle.ink_object_rows.specs.Target.{tested};

use crate::receiver::receiver;
use ink_base::{ObjectId, Value};
use ink_code::{ARRAY_KIND, Wrong};
use ink_heap::Heap;
use ink_rows::operands::{int_of, pair, single};

/// An array of so many items, and the item that goes behind them.
pub(crate) struct ItemGiven<'a> {
    pub(crate) id: ObjectId,
    pub(crate) value: &'a Value,
    pub(crate) size: u64,
}

/// An array of so many items, a number, and the item that goes to this index.
pub(crate) struct PlaceGiven<'a> {
    pub(crate) id: ObjectId,
    pub(crate) number: i64,
    pub(crate) value: &'a Value,
    pub(crate) size: usize,
}

/// What a row is given that puts an item behind the others.
#[tactic(auto, unfolding(ink_code::specs::Machine::after))]
pub(crate) fn item_given<'a>(heap: &Heap, values: &'a [Value]) -> Result<ItemGiven<'a>, Wrong>
    ensures { MatchResult result
        (λ given. IsItemGiven values.now heap.now.objects given.id given.value.now given.size)
        (λ why. after (received array_kind values.now heap.now.objects) (λ one. single one.operands) ≡ Err why) }
{
    let (id, operands) = receiver(heap, ARRAY_KIND, values)?;
    let value = single(operands)?;
    match heap.size(&id) {
        None => Err(Wrong::Object),
        Some(size) => Ok(ItemGiven { id, value, size }),
    }
}

/// What a row is given that puts an item at an index.
#[tactic(auto, unfolding(crate::specs::Target::tested, ink_code::specs::Machine::after))]
pub(crate) fn place_given<'a>(heap: &Heap, values: &'a [Value]) -> Result<PlaceGiven<'a>, Wrong>
    ensures { MatchResult result
        (λ given. IsPlaceGiven values.now heap.now.objects given.id given.value.now given.number given.size)
        (λ why. tested values.now heap.now.objects ≡ Err why) }
{
    let (id, operands) = receiver(heap, ARRAY_KIND, values)?;
    let (one, value) = pair(operands)?;
    let number = int_of(one)?;
    match heap.size(&id) {
        None => Err(Wrong::Object),
        Some(size) => Ok(PlaceGiven {
            id,
            number,
            value,
            size: size as usize,
        }),
    }
}
