//! Written types.

use crate::list::Children;
use crate::word::NameId;

/// The number of a written type.
pub type WrittenTypeId = u32;

/// What stands before a written type.
#[derive(Clone, Copy)]
pub enum Prefix {
    Ref,
    Mut,
    Uni,
}

/// A type as it is written. Its parts come before it.
#[derive(Clone, Copy)]
pub enum WrittenType {
    Named { name: NameId, arguments: Children },
    Prefixed { prefix: Prefix, bare: WrittenTypeId },
    /// A tuple of two or three.
    Tuple { parts: Children },
}
