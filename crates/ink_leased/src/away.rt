//! A process that is away from its world.
ghost use Rattle.std.specs.Prelude.{◌≡◌, ◌≢◌, ℕ, List};
ghost use Rattle.std.specs.Bool.{MatchBool};
ghost use Rattle.ink_post.specs.Asks.{ComesOn};
ghost use Rattle.ink_post.specs.declared.answer.Came.TheVariants as home;
ghost use Rattle.ink_proc.specs.State.{state_of};

use ink_base::{Limit, Limits};
use ink_code::Code;
use ink_interp::slice;
use ink_proc::Proc;
use ink_run::{Came, came_of};
use std::alloc::Global;

/// A process that is away, and what it came to.
#[derive(Drop)]
pub struct Away {
    pub(crate) proc: Proc,
    pub(crate) came: Came,
    /// Whether there was memory for its slice. Without it the process made fewer steps.
    pub(crate) is_whole: bool,
}

impl Away {
    /// A process that made no step of its slice yet.
    pub(crate) fn of(proc: Proc) -> Away
        ensures process { result.proc ≡ proc }
        ensures came { result.came ≡ home.Went }
    {
        Away {
            proc,
            came: Came::Went,
            is_whole: true,
        }
    }

    /// Whether it can make steps before it comes home.
    fn goes_on(&self) -> bool
        ensures { MatchBool result (self.now.came ≡ home.Went) (self.now.came ≢ home.Went) }
    {
        matches!(self.came, Came::Went)
    }

    /// The process makes a slice, unless it came to something else before.
    pub(crate) fn make_slice(&mut self, alloc: Global, code: &Code, limits: &Limits)
        ensures { (journal : List ℕ) (process : ℕ) → ComesOn code.now limits.now journal process self.old.came (state_of self.old.proc) → ComesOn code.now limits.now journal process self.new.came (state_of self.new.proc) }
    {
        if !self.goes_on() {
            return;
        }
        let most = limits.get(Limit::Slice);
        let (came, is_whole) = came_of(slice(alloc, &mut self.proc, code, limits, most));
        self.came = came;
        self.is_whole = is_whole;
    }
}
