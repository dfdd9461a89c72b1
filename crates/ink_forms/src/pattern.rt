//! Patterns.

use crate::list::Children;
use crate::word::{Identifier, Literal, Made, NameId};

/// The number of a pattern.
pub type PatternId = u32;

/// A pattern. Its parts come before it.
#[derive(Clone, Copy)]
pub enum Pattern {
    /// `_`.
    Wildcard,
    Lit { literal: Literal },
    /// A variable that is bound.
    Name { is_mutable: bool, name: NameId },
    /// A constructor or a tuple.
    Constructor { made: Made, parts: Children },
    /// Any of these.
    Either { alternatives: Children },
    /// An object with these fields. The items of the list are field patterns.
    Fields { fields: Children },
}

/// A field of a pattern. It is no node.
#[derive(Clone, Copy)]
pub struct FieldPattern {
    pub field: Identifier,
    pub pattern: PatternId,
}
