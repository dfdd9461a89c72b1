//! Why a heap refuses.
use ink_base::{Items, Value};

/// Why no object was made. The fields come back.
#[derive(Debug, Drop)]
pub enum MakeFault {
    /// As many objects live as are allowed, or more.
    Full(Items<Value>),
    /// Fewer live, and there was no memory for one more.
    OutOfMemory(Items<Value>),
}

/// Why an object got no further field. The value comes back.
#[derive(Debug, Drop)]
pub enum PushFault {
    /// There is no such object.
    Absent(Value),
    /// It has as many fields as are allowed, or more.
    Full(Value),
    /// It has fewer, and there was no memory for one more.
    OutOfMemory(Value),
}

/// Why an object stays.
#[derive(Clone, Copy, Debug, PartialEq, Eq)]
pub enum FreeFault {
    /// There is no such object.
    Absent,
    /// So many borrows of it live, which is at least one.
    Borrowed(u64),
}
