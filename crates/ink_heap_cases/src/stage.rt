//! What the calls of a case work on.

use ink_base::{Items, Object, Value};
use ink_code::Wrong;
use ink_heap::Heap;
use ink_parcel::Parcel;
use ink_proc::{Frames, Pending};
use ink_sheet::Sheet;
use std::alloc::Global;

/// What the calls of a case work on.
#[derive(Drop)]
pub struct Stage {
    pub heap: Heap,
    /// An object that was taken out of the heap.
    pub taken: Option<Object>,
    /// A parcel that was cut from it.
    pub parcel: Option<Parcel>,
    pub frames: Frames,
    /// Values that were moved out of registers.
    pub moved: Items<Value>,
    pub pending: Pending,
}

impl Stage {
    /// Nothing is made yet.
    pub fn new(alloc: Global) -> Stage {
        Stage {
            heap: Heap::new(alloc),
            taken: None,
            parcel: None,
            frames: Frames::new(alloc),
            moved: Items::new(alloc),
            pending: Pending::new(alloc),
        }
    }
}

/// In which way something is wrong.
pub fn told_wrong(sheet: &mut Sheet, why: Wrong) {
    sheet.text(match why {
        Wrong::Empty => "wrong: Empty",
        Wrong::Kind => "wrong: Kind",
        Wrong::Object => "wrong: Object",
        Wrong::Absent => "wrong: Absent",
    });
}
