//! What a wanted action comes to: it waits, the journal is full, it is made as a panic, or it is made.
ghost use Rattle.std.specs.Prelude.{◌≡◌, ◌≤◌, ℕ, List, None, Some};
ghost use Rattle.ink_base.specs.Actions.{Panic};
ghost use Rattle.ink_post.specs.Answers.{ActsOn, panicked};
ghost use Rattle.ink_post.specs.Asks.{BringsApart, GoesOn};
ghost use Rattle.ink_post.specs.Worlds.{world_of};
ghost use Rattle.ink_post.specs.declared.answer.Came.TheVariants as came;
ghost use Rattle.ink_proc.specs.State.{state_of};
ghost use Rattle.ink_steps.specs.Answers.{action_of};
ghost use Rattle.ink_worlds.specs.State.{back_in, halted, waits_at};
ghost use Rattle.ink_worlds.specs.declared.halt.Halt.TheVariants.{Events};
ghost use Rattle.ink_worlds.specs.declared.status.Status.TheVariants.{Stopped};

use crate::answer::{Answer, Came, CheckFault};
use crate::making::back;
use crate::post::Post;
use ink_base::Text;
use ink_code::Code;
use ink_interp::Request;
use ink_proc::Proc;
use ink_worlds::{Halt, Status};

/// How a process waits for an action that can't be made now.
fn waits_at(wish: &Request) -> Status
    ensures { result ≡ waits_at (action_of wish.now) }
{
    match wish {
        Request::GetFuture { future } => Status::Held(*future),
        _ => Status::Idle,
    }
}

impl Post {
    /// The process goes home, and waits until its action can be made.
    pub(crate) fn wait(&mut self, process: u32, proc: Proc, wish: &Request)
        ensures after { (output : List ℕ) → world_of self.new output ≡ back_in process (state_of proc) (waits_at (action_of wish.now)) (world_of self.old output) }
        ensures limits { self.new.limits ≡ self.old.limits }
        ensures wrong { self.new.wrong ≡ self.old.wrong }
    {
        self.come_home(process, proc, waits_at(wish));
    }

    /// The process goes home for good, since the journal is at its limit.
    fn fill(&mut self, process: u32, proc: Proc)
        ensures after { (output : List ℕ) → world_of self.new output ≡ halted (Events process) (back_in process (state_of proc) Stopped (world_of self.old output)) }
        ensures limits { self.new.limits ≡ self.old.limits }
        ensures wrong { self.new.wrong ≡ self.old.wrong }
    {
        self.come_home(process, proc, Status::Stopped);
        self.halt = Some(Halt::Events(process));
    }

    /// A panic: it ends the run.
    fn make_panic(&mut self, process: u32, mut proc: Proc, text: Text)
        requires { 1 ≤ self.old.journal.spare }
        ensures after { (output : List ℕ) → world_of self.new output ≡ panicked process (state_of proc) text (world_of self.old output) }
        ensures limits { self.new.limits ≡ self.old.limits }
        ensures wrong { self.new.wrong ≡ self.old.wrong }
    {
        proc.ran = 0;
        self.come_home(process, proc, Status::Stopped);
        self.journal.add(process);
        self.text = Some(text);
        self.halt = Some(Halt::Panicked(process));
    }

    /// What a wanted action comes to.
    pub(crate) fn act_on(
        &mut self,
        code: &Code,
        process: u32,
        proc: Proc,
        wish: Request,
    ) -> Result<Answer, CheckFault>
        requires goes { GoesOn self.old }
        requires brings { BringsApart (action_of wish) process (state_of proc) self.old }
        ensures acts { ActsOn code.now (action_of wish) process (state_of proc) (came.Wants wish) self.old self.new result }
        ensures limits { self.new.limits ≡ self.old.limits }
        ensures wrong { self.new.wrong ≡ self.old.wrong }
    {
        if !self.is_enabled(process, &wish) {
            self.wait(process, proc, &wish);
            return Ok(Answer::Waits);
        }
        if self.is_full() {
            self.fill(process, proc);
            return Ok(Answer::JournalFull);
        }
        let panics = self.panic_of(&wish);
        match self.reserve() {
            Ok(()) => {}
            Err(_) => return Err(back(proc, wish)),
        }
        match panics {
            None => self.make(code, process, proc, wish),
            Some(text) => match Text::of(self.alloc, text.as_bytes()) {
                Err(_) => Err(back(proc, wish)),
                Ok(text) => {
                    self.make_panic(process, proc, text);
                    Ok(Answer::Panicked)
                }
            },
        }
    }

    /// What a panic comes to.
    pub(crate) fn panic_with(
        &mut self,
        code: &Code,
        process: u32,
        proc: Proc,
        text: Text,
    ) -> Result<Answer, CheckFault>
        requires { GoesOn self.old }
        ensures acts { ActsOn code.now (Panic text) process (state_of proc) (came.Panics text) self.old self.new result }
        ensures limits { self.new.limits ≡ self.old.limits }
        ensures wrong { self.new.wrong ≡ self.old.wrong }
    {
        if self.is_full() {
            self.fill(process, proc);
            return Ok(Answer::JournalFull);
        }
        if self.journal.reserve(1).is_err() {
            return Err(CheckFault {
                proc,
                came: Came::Panics(text),
            });
        }
        self.make_panic(process, proc, text);
        Ok(Answer::Panicked)
    }
}
