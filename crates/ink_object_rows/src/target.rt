//! The index of an array at which a row puts an item.
ghost use Rattle.ink_object_rows.specs.Target.{IsTarget};

use crate::given::{PlaceGiven, place_given};
use ink_base::{ObjectId, Text, Value};
use ink_code::Wrong;
use ink_heap::Heap;
use ink_parcel::is_under;
use ink_rows::RowFault;
use ink_rows::operands::index_in;
use ink_rows::texts::index_text;
use std::alloc::Global;

/// Where a row puts an item.
#[derive(Drop)]
pub(crate) enum Target {
    /// At this index of an array.
    Item { id: ObjectId, index: u64 },
    /// Nowhere: it panics with this text.
    Panic(Text),
}

/// Where the row puts the last of its operands.
pub(crate) fn find_target(alloc: Global, heap: &Heap, values: &[Value]) -> Result<Target, RowFault>
    ensures { IsTarget result values.now heap.now.objects }
{
    let PlaceGiven {
        id,
        number,
        value,
        size,
    } = place_given(heap, values)?;
    let index = match index_in(number, size) {
        None => return Ok(Target::Panic(index_text(alloc, number, size)?)),
        Some(index) => index as u64,
    };
    let Some(_item) = heap.read(&id, index) else {
        return Err(RowFault::Wrong(Wrong::Absent));
    };
    if is_under(alloc, heap, &id, value)? {
        return Ok(Target::Panic(Text::of(alloc, b"ownership cycle")?));
    }
    Ok(Target::Item { id, index })
}
