//! How a run stands: who is ready, who is lent, and how it ended.
ghost use Rattle.std.specs.Prelude.{◌≡◌, ◌+◌, None, Some, IfSome};
ghost use Rattle.std.specs.List.{list_any, position};
ghost use Rattle.std.specs.Option.{option_map};
ghost use Rattle.ink_code.specs.declared.code.Code.{Code};
ghost use Rattle.ink_post.specs.Ends.{end_by, end_in, rest_by, some_is_up};
ghost use Rattle.ink_post.specs.Meaning.{Ends};
ghost use Rattle.ink_post.specs.Worlds.{Stands};
ghost use Rattle.ink_statuses.specs.Readings.{is_out, is_ready};
ghost use Rattle.ink_worlds.specs.declared.halt.Halt.TheVariants.{SinkFailed};

use crate::answer::End;
use crate::post::Post;
use ink_worlds::Halt;

/// The end that a check-in brought.
fn end_by(halt: Halt) -> End
    ensures { result ≡ end_by halt }
{
    match halt {
        Halt::Panicked(process) => End::Panicked(process),
        Halt::SinkFailed => End::SinkFailed,
        Halt::Events(process) => End::Events(process),
        Halt::Local(process, steps) => End::Local(process, steps),
    }
}

impl Post {
    /// The sink failed in the print that is the last entry.
    pub fn fail_sink(&mut self)
        ensures { self.new ≡ record self.old { halt = Some SinkFailed } }
    {
        self.halt = Some(Halt::SinkFailed);
    }

    /// The least process that is ready. `None` exactly where there is none.
    pub fn first_ready(&self) -> Option<u32>
        ensures { result ≡ option_map (λ index. index + 1) (position is_ready self.now.statuses.items) }
    {
        self.statuses.first_ready()
    }

    /// Whether a process is lent.
    pub fn any_out(&self) -> bool
        ensures { result ≡ list_any is_out self.now.statuses.items }
    {
        self.statuses.any_out()
    }

    /// Whether a process is ready, lent or stopped.
    fn some_is_up(&self) -> bool
        ensures { result ≡ some_is_up self.now.statuses.items }
    {
        self.first_ready().is_some() || self.any_out() || self.statuses.any_stopped()
    }

    /// The end where all wait.
    fn rest_end(&self) -> Option<End>
        ensures { result ≡ rest_by (some_is_up self.now.statuses.items) self.now.statuses.items }
    {
        if self.some_is_up() {
            return None;
        }
        match self.statuses.first_held() {
            None => Some(End::Quiet),
            Some(process) => Some(End::Waiting(process)),
        }
    }

    /// How the run ended. `None` where it goes on: a process is ready or lent, or stopped without an end.
    pub fn end(&self) -> Option<End>
        ensures is { result ≡ end_in self.now.halt self.now.wrong self.now.statuses.items }
        ensures means { (code : Code) → Stands code self.now → self.now.wrong ≡ None → IfSome result (λ end. Ends code self.now.limits self.now.journal.entries end) }
    {
        if let Some(halt) = self.halt {
            return Some(end_by(halt));
        }
        if let Some(process) = self.wrong {
            return Some(End::Wrong(process));
        }
        self.rest_end()
    }
}
