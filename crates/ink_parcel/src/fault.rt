//! Why a parcel was not cut or not joined.
ghost use Rattle.std.specs.Prelude.{◌≡◌};
ghost use Rattle.ink_parcel.specs.Walk.{with_values};

use crate::parcel::Parcel;
use ink_base::{Items, Value};

/// Why no parcel was cut. The values come back.
#[derive(Debug, Drop)]
pub enum CutFault {
    /// There was no memory for the parcel.
    OutOfMemory(Items<Value>),
    /// An object that a value or a field of the tree owns isn't in the heap, or is owned twice.
    Absent(Items<Value>),
}

/// Why not all objects of a tree were moved.
#[derive(Drop)]
pub(crate) enum MoveFault {
    /// There was no memory for one more.
    OutOfMemory,
    /// One wasn't there at its turn.
    Absent,
}

impl MoveFault {
    /// The same with the values that come back.
    pub(crate) fn with_values(self, values: Items<Value>) -> CutFault
        ensures { result ≡ with_values self values }
    {
        match self {
            MoveFault::OutOfMemory => CutFault::OutOfMemory(values),
            MoveFault::Absent => CutFault::Absent(values),
        }
    }
}

/// Why a parcel was not joined. It comes back.
#[derive(Debug, Drop)]
pub enum JoinFault {
    /// There was no memory for its objects in the heap.
    OutOfMemory(Parcel),
}
