//! Whether an action can be made, and whether it is made as a panic in its place.
ghost use Rattle.std.specs.Prelude.{◌≡◌, nat_le, ℕ, List, length};
ghost use Rattle.std.specs.Option.{option_copied};
ghost use Rattle.ink_base.specs.Actions.{is_enabled, panic_of, reached};
ghost use Rattle.ink_base.specs.Limits.{limit_of};
ghost use Rattle.ink_base.specs.declared.limits.Limit.TheVariants.{Events};
ghost use Rattle.ink_post.specs.Worlds.{world_of};
ghost use Rattle.ink_steps.specs.Answers.{action_of};

use crate::post::Post;
use ink_base::{FutureState, Limit};
use ink_interp::Request;

impl Post {
    /// Whether an action of a process can be made now.
    pub(crate) fn is_enabled(&self, process: u32, wish: &Request) -> bool
        ensures { (output : List ℕ) → result ≡ is_enabled (action_of wish.now) process (world_of self.now output).shared }
    {
        match wish {
            Request::Take => self.mail.unread(process) != 0,
            Request::GetFuture { future } => matches!(
                self.futures.state(*future),
                Some(FutureState::Set(_) | FutureState::Broken)
            ),
            _ => true,
        }
    }

    /// The text of the panic of a limit, where so many reach its number.
    fn reached(&self, limit: Limit, count: u64) -> Option<&'static str>
        ensures { option_copied result ≡ reached limit count self.now.limits }
    {
        if self.limits.get(limit) <= count {
            limit.panic_text()
        } else {
            None
        }
    }

    /// With which text an action is made as a panic in its place.
    pub(crate) fn panic_of(&self, wish: &Request) -> Option<&'static str>
        ensures { (output : List ℕ) → option_copied result ≡ panic_of (action_of wish.now) (world_of self.now output).shared self.now.limits }
    {
        match wish {
            Request::Spawn { .. } => self.reached(Limit::Processes, self.mail.len()),
            Request::Send { to, .. } => self.reached(Limit::Mailbox, self.mail.unread(*to)),
            Request::NewFuture => self.reached(Limit::Futures, self.futures.len()),
            Request::GetFuture { future } => match self.futures.state(*future) {
                Some(FutureState::Broken) => Some("future is broken"),
                _ => None,
            },
            _ => None,
        }
    }

    /// Whether the journal is at its limit.
    pub(crate) fn is_full(&self) -> bool
        ensures { result ≡ nat_le (limit_of Events self.now.limits) (length self.now.journal.entries) }
    {
        self.limits.get(Limit::Events) <= self.journal.len()
    }
}
