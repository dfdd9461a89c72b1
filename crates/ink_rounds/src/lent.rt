//! A process that is lent for a slice.
ghost use Rattle.std.specs.Prelude.{◌≡◌};
ghost use Rattle.ink_rounds.specs.Lent.{IsSliced};

use ink_base::{Limit, Limits};
use ink_code::Code;
use ink_interp::slice;
use ink_proc::Proc;
use ink_run::{Came, came_of};
use std::alloc::Global;

/// A lent process, and what its slice came to.
#[derive(Drop)]
pub struct Lent {
    pub number: u32,
    pub proc: Proc,
    pub came: Came,
    /// Whether there was memory for the slice. Without it the process made fewer steps.
    pub is_whole: bool,
}

impl Lent {
    /// A process that made no step of its slice yet.
    pub(crate) fn of(number: u32, proc: Proc) -> Lent
        ensures number { result.number ≡ number }
        ensures process { result.proc ≡ proc }
    {
        Lent {
            number,
            proc,
            came: Came::Went,
            is_whole: true,
        }
    }

    /// The process makes its slice.
    pub(crate) fn make_slice(&mut self, alloc: Global, code: &Code, limits: &Limits)
        ensures { IsSliced code.now limits.now self.old self.new }
    {
        let most = limits.get(Limit::Slice);
        let (came, is_whole) = came_of(slice(alloc, &mut self.proc, code, limits, most));
        self.came = came;
        self.is_whole = is_whole;
    }
}
