//! The numbers of constants.

use ink_forms::{IntegerId, Literal, TextId};

/// Which number each constant of a module has: nil, false and true come first, then the integers of its table, the texts
/// of its table, and the tags of constructors.
#[derive(Clone, Copy)]
pub struct Constants {
    /// How many integers the table has, and how many texts.
    pub integers: u32,
    pub texts: u32,
}

/// The number of the first integer.
const FIRST_INTEGER: u32 = 3;

impl Constants {
    /// Nil.
    pub fn nil(self) -> u32 {
        0
    }

    /// A truth value.
    pub fn truth(self, truth: bool) -> u32 {
        if truth { 2 } else { 1 }
    }

    /// An integer of the table.
    pub fn integer(self, integer: IntegerId) -> u32 {
        integer.saturating_add(FIRST_INTEGER)
    }

    /// A text of the table.
    pub fn text(self, text: TextId) -> u32 {
        text.saturating_add(FIRST_INTEGER)
            .saturating_add(self.integers)
    }

    /// The tag of a constructor, which is its place among those of its type.
    pub fn tag(self, tag: u32) -> u32 {
        tag.saturating_add(FIRST_INTEGER)
            .saturating_add(self.integers)
            .saturating_add(self.texts)
    }

    /// A literal.
    pub fn literal(self, literal: Literal) -> u32 {
        match literal {
            Literal::Int(integer) => self.integer(integer),
            Literal::Bool(truth) => self.truth(truth),
            Literal::Nil => self.nil(),
            Literal::Text(text) => self.text(text),
        }
    }
}
