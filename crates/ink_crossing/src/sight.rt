//! What is seen of a body.

use ink_findings::Typed;
use ink_forms::{Arena, ExprId};
use ink_names::Resolutions;
use ink_types::{Term, Types};

/// The nodes of a module, what their names stand for, and the types that were found so far.
#[derive(Clone, Copy)]
pub struct Sight<'a> {
    pub arena: &'a Arena,
    pub resolutions: &'a Resolutions,
    pub typed: &'a Typed,
    pub types: &'a Types,
}

impl<'a> Sight<'a> {
    /// Whether a value type was found of a node.
    pub fn is_value(&self, node: u32) -> bool {
        match self.typed.type_of(node) {
            Some(of) => self.types.is_value(of),
            None => false,
        }
    }

    /// Whether a type was found of a node that can't be borrowed: `uni T`, Future or Promise.
    pub fn is_unborrowable(&self, node: u32) -> bool {
        match self.typed.type_of(node) {
            Some(of) => self.types.is_unborrowable(of),
            None => false,
        }
    }

    /// Whether the values of a node's type may be sent. A node of which no type was found breaks no rule here, so that it
    /// counts as one whose values may.
    pub fn is_sendable(&self, node: u32) -> bool {
        match self.typed.type_of(node) {
            Some(of) => self.types.sendable(of),
            None => true,
        }
    }

    /// Whether a type `uni T` was found of an expression.
    pub fn is_unique(&self, node: ExprId) -> bool {
        match self.typed.type_of(node) {
            Some(of) => match self.types.term(of) {
                Term::Uni(_) => true,
                _ => false,
            },
            None => false,
        }
    }
}
