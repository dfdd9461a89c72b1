//! What a worker has in its hands between two turns.
use std::alloc::{AllocError, Global};

/// A process that a worker took out, with what it came to.
#[derive(Drop)]
pub struct Held<W> {
    pub process: u32,
    pub work: W,
}

/// A worker takes no more processes than this at one turn.
pub(crate) const MOST: usize = 16;

/// What a worker means to take, and what it is to tell the others. No proof rests on it: a number that is wrong or lost costs
/// time alone.
#[derive(Drop)]
pub(crate) struct Plan {
    /// The processes that it means to take at the next turn, those of its deck or of another's.
    pub(crate) wishes: Vec<u32>,
    /// The processes that came home at this turn and can run on.
    pub(crate) ready: Vec<u32>,
    /// How many processes it takes at most, from 1 to `MOST`.
    pub(crate) most: usize,
}

impl Plan {
    /// A worker that begins takes one process.
    pub(crate) fn new(alloc: Global) -> Result<Plan, AllocError> {
        Ok(Plan {
            wishes: Vec::with_capacity(alloc, MOST)?,
            ready: Vec::with_capacity(alloc, MOST)?,
            most: 1,
        })
    }

    /// Takes more next time where more were ready than it took, and less where none was left.
    pub(crate) fn adapt(&mut self, any_left: bool) {
        self.most = if any_left {
            self.most.saturating_mul(2).min(MOST)
        } else {
            (self.most / 2).max(1)
        };
    }
}
