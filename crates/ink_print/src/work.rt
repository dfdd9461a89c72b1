//! The work that is still to do, the next first.

ghost use Rattle.std.specs.Prelude.{◌≡◌, ◌++◌, ◌∷◌, ◌≤◌, [], List, length, MatchOption, OnOk, drop, reverse};
ghost use Rattle.ink_print.specs.declared.work.Work.{Work};

use crate::context::Context;
use crate::step::Piece;
use std::alloc::{AllocError, Global};
use std::marker::Model;

/// Something that is still to print.
#[derive(Clone, Copy)]
pub enum Work {
    /// What is no node's.
    Nothing,
    Piece(Piece),
    /// The node of this number, at its context.
    Node(u32, Context),
}

/// The work that is still to do.
#[derive(Drop)]
pub struct Stack {
    items: Vec<Work>,
}

impl Model for Stack {
    ghost Value = { List Work };

    ghost view = { λ s. reverse s.items.items };
}

impl Stack {
    pub fn new(alloc: Global) -> Self
        ensures { result ≡ [] }
    {
        Stack {
            items: Vec::new(alloc),
        }
    }

    /// Takes the next work off it.
    pub fn pop(&mut self) -> Option<Work>
        ensures { MatchOption result ((self.old ≡ []) × (self.new ≡ [])) (λ w. self.old ≡ w ∷ self.new) }
    {
        self.items.pop()
    }

    /// Puts a work on it, so that it comes next.
    pub fn push(&mut self, work: Work) -> Result<(), AllocError>
        ensures { OnOk result (self.new ≡ work ∷ self.old) }
    {
        self.items.push(work)?;
        Ok(())
    }
}
