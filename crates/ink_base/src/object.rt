//! Objects, as heaps and parcels keep them.
//!
//! Where an object is kept, and which borrows its count counts, is not known here.
use crate::items::Items;
use crate::value::Value;

/// What is kept under the name of an object.
#[derive(Debug, Drop)]
pub struct Object {
    /// The number of its type.
    pub kind: u32,
    /// Which variant of its type it is.
    pub tag: u32,
    /// The values that it holds, in order.
    pub fields: Items<Value>,
    /// How many borrows of it live.
    pub count: u64,
}
