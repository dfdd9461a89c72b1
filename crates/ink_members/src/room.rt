//! What members are looked up in, and what is found.

use ink_findings::Target;
use ink_forms::Arena;
use ink_names::{Resolutions, Tables};
use ink_tables::{Integers, Names};
use ink_types::TypeId;
use std::alloc::Global;

/// What stays the same all the time. The signatures of all that the module declares have to be known before.
#[derive(Clone, Copy)]
pub struct MemberRoom<'a> {
    pub alloc: Global,
    pub arena: &'a Arena,
    pub names: &'a Names,
    pub integers: &'a Integers,
    pub tables: &'a Tables,
    pub resolutions: &'a Resolutions,
    /// Each kind as a type with its own parameters.
    pub own_types: &'a [TypeId],
}

/// A member of a type.
#[derive(Clone, Copy)]
pub enum Member {
    /// A field by its place, and its declared type, in which the arguments of the base's type are put in. How it is seen
    /// through a borrow is not said.
    Field { index: u32, of: TypeId },
    Calls(Target),
}

/// What a name means: one member, or none, since there are several or none of that name.
#[derive(Clone, Copy)]
pub enum Lookup {
    Found(Member),
    Several,
    Absent,
}
