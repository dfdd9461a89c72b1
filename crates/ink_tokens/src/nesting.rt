//! What is open at a place: texts, `${` and the braces in them.
ghost use Rattle.std.specs.Prelude.{◌≡◌, OnOk};
ghost use Rattle.ink_tokens.specs.Nest.{nest_of, first_nest, opened_behind, entered, left, changed};

use crate::reading::{Change, Level};
use std::alloc::{AllocError, Global};

/// The level of a place, and the levels around it.
#[derive(Drop)]
pub(crate) struct Nesting {
    pub(crate) level: Level,
    /// The levels around it, the outermost first.
    pub(crate) outer: Vec<Level>,
    /// Where the last text began that stands in no other.
    pub(crate) opened: u32,
}

/// Where the last text began that stands in no other, once one more has begun.
#[tactic(auto, unfolding(crate::specs::Nest::opened_behind))]
fn opened_behind(level: Level, opened: u32, at: u32) -> u32
    ensures { result ≡ opened_behind level opened at }
{
    match level {
        Level::Outside => at,
        Level::Text(_) => opened,
        Level::Embedded => opened,
        Level::Braces => opened,
    }
}

impl Nesting {
    /// That of the first byte.
    pub(crate) fn new(alloc: Global) -> Nesting
        ensures { nest_of result ≡ first_nest }
    {
        Nesting {
            level: Level::Outside,
            outer: Vec::new(alloc),
            opened: 0,
        }
    }

    /// Goes one level in, at a place.
    fn enter(&mut self, inner: Level, at: u32) -> Result<(), AllocError>
        ensures { OnOk result (nest_of self.new ≡ entered (nest_of self.old) inner at) }
    {
        self.outer.push(self.level)?;
        self.opened = opened_behind(self.level, self.opened, at);
        self.level = inner;
        Ok(())
    }

    /// Goes one level out.
    fn leave(&mut self)
        ensures { nest_of self.new ≡ left (nest_of self.old).outer self.old.opened }
    {
        self.level = match self.outer.pop() {
            Some(level) => level,
            None => Level::Outside,
        };
    }

    /// Makes the change that a token at a place makes.
    #[tactic(auto, unfolding(crate::specs::Nest::changed))]
    pub(crate) fn change(&mut self, change: Change, at: u32) -> Result<(), AllocError>
        ensures { OnOk result (nest_of self.new ≡ changed (nest_of self.old) change at) }
    {
        match change {
            Change::Stay => Ok(()),
            Change::Enter(inner) => self.enter(inner, at),
            Change::Leave => {
                self.leave();
                Ok(())
            }
        }
    }
}
