//! The turns of processes: a process goes out, and comes home with what it came to.
ghost use Rattle.std.specs.Prelude.{◌≡◌, ◌↔◌, ℕ, List, None, Some, IsTrue, IfErr, IfOk, OnErr};
ghost use Rattle.ink_base.specs.Actions.{Action};
ghost use Rattle.ink_code.specs.declared.code.Code.{Code as OneCode};
ghost use Rattle.ink_code.specs.Trees.{Parcel};
ghost use Rattle.ink_post.specs.Answers.{ActsAs, ChecksHome, GoesAs, Lends, OthersStay, StandsOn, StaysAhead, TellsWrong, told_answer, wrong_after, wrong_by};
ghost use Rattle.ink_post.specs.Asks.{BringsApart, ComesOn, GoesOn, IsComing, IsLent, NoneReady, came_with, has_memory, told_came};
ghost use Rattle.ink_post.specs.Entries.{entries_by};
ghost use Rattle.ink_post.specs.Turning.{FaultsBy, LooksAs, LooksOn, Rests, Sees, SeesBy, SeesWrong, wrong_after_look, wrong_seen};
ghost use Rattle.ink_post.specs.Worlds.{Same, Stands, world_of};
ghost use Rattle.ink_post.specs.declared.answer.ActFault.TheVariants as fault;
ghost use Rattle.ink_post.specs.declared.answer.Came.TheVariants as home;
ghost use Rattle.ink_proc.specs.State.{state_of};
ghost use Rattle.ink_worlds.specs.State.{Wants, back_in};
ghost use Rattle.ink_worlds.specs.declared.status.Status.TheVariants.{Ready, Stopped};

use crate::answer::{ActFault, Answer, Came, CheckFault, Looked, NotReady};
use crate::post::Post;
use ink_code::Code;
use ink_interp::{StepFault, Stepped, slice};
use ink_proc::Proc;
use ink_worlds::{Halt, Status};

/// As many steps as can be asked for at once.
const ALL: u64 = u64::MAX;

/// With what a process comes home from a slice, and whether there was memory. Without it the process can go on.
pub fn came_of(stepped: Result<Stepped, StepFault>) -> (Came, bool)
    ensures came { result.0 ≡ came_with stepped }
    ensures memory { result.1 ≡ has_memory stepped }
{
    match stepped {
        Ok(Stepped::Went) => (Came::Went, true),
        Ok(Stepped::Wants(wish)) => (Came::Wants(wish), true),
        Ok(Stepped::Panics(text)) => (Came::Panics(text), true),
        Ok(Stepped::Spent(steps)) => (Came::Spent(steps), true),
        Err(StepFault::Wrong(_)) => (Came::Wrong, true),
        Err(StepFault::OutOfMemory) => (Came::Went, false),
    }
}

/// Whether a process can be lent.
fn is_ready(status: Option<Status>) -> bool
    ensures { IsTrue result ↔ (status ≡ Some Ready) }
{
    matches!(status, Some(Status::Ready))
}

/// The last process whose code was found wrong, after an answer.
fn wrong_by(answer: &Answer, process: u32, before: Option<u32>) -> Option<u32>
    ensures { result ≡ wrong_by answer.now process before }
{
    match answer {
        Answer::Wrong => Some(process),
        _ => before,
    }
}

impl Post {
    /// Lends a process that is ready to a seat, as the lists have it: what it leaves of the other processes isn't said here.
    fn take_out(&mut self, process: u32, seat: u32) -> Result<Proc, NotReady>
        ensures lends { IfOk result (λ proc. Lends process seat self.old self.new (state_of proc)) }
        ensures none { OnErr result (NoneReady process self.old) }
        ensures same { OnErr result (Same self.old self.new) }
        ensures limits { self.new.limits ≡ self.old.limits }
        ensures wrong { self.new.wrong ≡ self.old.wrong }
    {
        if !is_ready(self.statuses.get(process)) {
            return Err(NotReady);
        }
        if self.proc(process).is_none() {
            return Err(NotReady);
        }
        match self.homes.set(process, None) {
            Some(Some(proc)) => {
                self.statuses.set(process, Status::Out(seat, proc.ran));
                Ok(proc)
            }
            Some(None) => unreachable!(),
            None => unreachable!(),
        }
    }

    /// Lends a process that is ready to a seat. `NotReady` exactly where there is none of that number, or it isn't ready. It
    /// takes no memory.
    pub fn check_out(&mut self, process: u32, seat: u32) -> Result<Proc, NotReady>
        ensures lends { IfOk result (λ proc. Lends process seat self.old self.new (state_of proc)) }
        ensures lent { (code : OneCode) → Stands code self.old → IfOk result (λ proc. IsLent code self.new process seat (state_of proc)) }
        ensures stands { (code : OneCode) → Stands code self.old → Stands code self.new }
        ensures others { (code : OneCode) → OthersStay code process self.old self.new }
        ensures none { OnErr result (NoneReady process self.old) }
        ensures same { OnErr result (Same self.old self.new) }
        ensures limits { self.new.limits ≡ self.old.limits }
        ensures wrong { self.new.wrong ≡ self.old.wrong }
    {
        match self.take_out(process, seat) {
            Ok(proc) => Ok(proc),
            Err(why) => Err(why),
        }
    }

    /// The process goes home, and makes no further step.
    fn stop(&mut self, process: u32, proc: Proc)
        ensures after { (output : List ℕ) → world_of self.new output ≡ back_in process (state_of proc) Stopped (world_of self.old output) }
        ensures limits { self.new.limits ≡ self.old.limits }
        ensures wrong { self.new.wrong ≡ self.old.wrong }
    {
        self.come_home(process, proc, Status::Stopped);
    }

    /// What a process that comes home while the run goes on comes to.
    fn come_back(
        &mut self,
        code: &Code,
        process: u32,
        proc: Proc,
        came: Came,
    ) -> Result<Answer, CheckFault>
        requires goes { GoesOn self.old }
        requires brings { (wish : Action Parcel) → told_came came ≡ Some (Wants wish) → BringsApart wish process (state_of proc) self.old }
        ensures checks { ChecksHome code.now process came (state_of proc) self.old self.new result }
        ensures limits { self.new.limits ≡ self.old.limits }
        ensures wrong { self.new.wrong ≡ self.old.wrong }
    {
        match came {
            Came::Went => {
                self.come_home(process, proc, Status::Ready);
                Ok(Answer::Kept)
            }
            Came::GivesUp => {
                self.stop(process, proc);
                Ok(Answer::Kept)
            }
            Came::Wants(wish) => self.act_on(code, process, proc, wish),
            Came::Panics(text) => self.panic_with(code, process, proc, text),
            Came::Spent(steps) => {
                self.stop(process, proc);
                self.halt = Some(Halt::Local(process, steps));
                Ok(Answer::Spent(steps))
            }
            Came::Wrong => {
                self.abandon(process);
                Ok(Answer::Wrong)
            }
        }
    }

    /// A process comes home: after an end it only stops.
    fn settle(
        &mut self,
        code: &Code,
        process: u32,
        proc: Proc,
        came: Came,
    ) -> Result<Answer, CheckFault>
        requires goes { self.old.halt ≡ None → GoesOn self.old }
        requires brings { (wish : Action Parcel) → told_came came ≡ Some (Wants wish) → BringsApart wish process (state_of proc) self.old }
        ensures checks { ChecksHome code.now process came (state_of proc) self.old self.new result }
        ensures limits { self.new.limits ≡ self.old.limits }
        ensures wrong { self.new.wrong ≡ self.old.wrong }
    {
        if let Came::Wrong = came {
            self.abandon(process);
            return Ok(Answer::Wrong);
        }
        if self.halt.is_some() {
            self.stop(process, proc);
            return Ok(Answer::Kept);
        }
        self.come_back(code, process, proc, came)
    }

    /// A lent process comes home, and what it came to is done.
    ///
    /// After an end it only comes home. Without memory all stays, and the process and what it came with come back: then it
    /// can be tried again, or come home giving up. With `Went` and `GivesUp` no memory is wanted.
    pub fn check_in(
        &mut self,
        code: &Code,
        process: u32,
        seat: u32,
        proc: Proc,
        came: Came,
    ) -> Result<Answer, CheckFault>
        requires stands { Stands code.now self.old }
        requires comes { IsComing code.now self.old process seat came (state_of proc) }
        ensures checks { ChecksHome code.now process came (state_of proc) self.old self.new result }
        ensures stays { IfOk result (λ answer. StaysAhead code.now self.old self.new answer) }
        ensures stands { IfOk result (λ answer. StandsOn code.now self.new answer) }
        ensures limits { self.new.limits ≡ self.old.limits }
        ensures wrong { self.new.wrong ≡ wrong_after result process self.old.wrong }
        ensures tells { IfOk result (λ answer. TellsWrong code.now process self.old answer) }
        ensures again { OnErr result (Stands code.now self.new) }
        ensures others { OthersStay code.now process self.old self.new }
        ensures gives { IfErr result (λ fault. IsComing code.now self.new process seat home.GivesUp (state_of fault.proc)) }
    {
        match self.settle(code, process, proc, came) {
            Ok(answer) => {
                self.wrong = wrong_by(&answer, process, self.wrong);
                Ok(answer)
            }
            Err(fault) => Err(fault),
        }
    }

    /// A process whose action there was no memory for comes home, and never makes it.
    fn give_up(&mut self, code: &Code, process: u32, proc: Proc)
        requires stands { Stands code.now self.old }
        requires comes { IsComing code.now self.old process process home.GivesUp (state_of proc) }
        ensures rests { Rests code.now self.old self.new }
        ensures limits { self.new.limits ≡ self.old.limits }
        ensures wrong { self.new.wrong ≡ self.old.wrong }
    {
        match self.check_in(code, process, process, proc, Came::GivesUp) {
            Ok(_) => {}
            Err(_) => unreachable!(),
        }
    }

    /// A process for whose step there was no memory comes home, and can go on.
    fn come_again(&mut self, code: &Code, process: u32, proc: Proc)
        requires stands { Stands code.now self.old }
        requires comes { IsComing code.now self.old process process home.Went (state_of proc) }
        ensures rests { Rests code.now self.old self.new }
        ensures limits { self.new.limits ≡ self.old.limits }
        ensures wrong { self.new.wrong ≡ self.old.wrong }
    {
        match self.check_in(code, process, process, proc, Came::Went) {
            Ok(_) => {}
            Err(_) => unreachable!(),
        }
    }

    /// A lent process makes its own steps up to its next action, and comes home with that.
    fn go_on(&mut self, code: &Code, process: u32, mut proc: Proc) -> Result<Answer, ActFault>
        requires stands { Stands code.now self.old }
        requires lent { IsLent code.now self.old process process (state_of proc) }
        ensures goes { IfOk result (λ answer. GoesAs code.now process (state_of proc) self.old self.new answer) }
        ensures fails { OnErr result (Rests code.now self.old self.new) }
        ensures memory { IfErr result (λ why. why ≡ fault.OutOfMemory) }
        ensures limits { self.new.limits ≡ self.old.limits }
        ensures wrong { self.new.wrong ≡ wrong_after result process self.old.wrong }
        ensures tells { IfOk result (λ answer. TellsWrong code.now process self.old answer) }
    {
        let stepped = slice(self.alloc, &mut proc, code, &self.limits, ALL);
        let (came, memory) = came_of(stepped);
        if !memory {
            self.come_again(code, process, proc);
            return Err(ActFault::OutOfMemory);
        }
        match self.check_in(code, process, process, proc, came) {
            Ok(answer) => Ok(answer),
            Err(CheckFault { proc, came: _ }) => {
                self.give_up(code, process, proc);
                Err(ActFault::OutOfMemory)
            }
        }
    }

    /// Lets a process make its own steps up to its next action, and makes that.
    ///
    /// `NotReady` exactly where there is no such process or it isn't ready. Without memory no entry is added, and where the
    /// process came to its action already, that is never made.
    pub fn act(&mut self, code: &Code, process: u32) -> Result<Answer, ActFault>
        requires { Stands code.now self.old }
        ensures acts { IfOk result (λ answer. ActsAs code.now process self.old self.new answer) }
        ensures stays { IfOk result (λ answer. StaysAhead code.now self.old self.new answer) }
        ensures adds { IfOk result (λ answer. self.new.journal.entries ≡ entries_by (told_answer answer) process self.old.journal.entries) }
        ensures fails { OnErr result (Rests code.now self.old self.new) }
        ensures faults { IfErr result (λ why. FaultsBy process self.old why) }
        ensures limits { self.new.limits ≡ self.old.limits }
        ensures wrong { self.new.wrong ≡ wrong_after result process self.old.wrong }
        ensures tells { IfOk result (λ answer. TellsWrong code.now process self.old answer) }
    {
        match self.check_out(process, process) {
            Err(_) => Err(ActFault::NotReady),
            Ok(proc) => self.go_on(code, process, proc),
        }
    }

    /// What a process that came so far would do next: an action that can be made is never made any more.
    fn seen(&mut self, process: u32, proc: Proc, came: Came) -> Looked
        ensures sees { (output : List ℕ) → SeesBy process (told_came came) (state_of proc) (world_of self.old output) (world_of self.new output) result }
        ensures limits { self.new.limits ≡ self.old.limits }
        ensures wrong { self.new.wrong ≡ wrong_seen result process self.old.wrong }
    {
        match came {
            Came::Wants(wish) => {
                if self.is_enabled(process, &wish) {
                    self.stop(process, proc);
                    return Looked::Enabled;
                }
                self.wait(process, proc, &wish);
                Looked::Waits
            }
            Came::Panics(_) => {
                self.stop(process, proc);
                Looked::Enabled
            }
            Came::Spent(steps) => {
                self.stop(process, proc);
                self.halt = Some(Halt::Local(process, steps));
                Looked::Spent(steps)
            }
            Came::Wrong => {
                self.abandon(process);
                self.wrong = Some(process);
                Looked::Wrong
            }
            Came::Went => {
                self.come_home(process, proc, Status::Ready);
                Looked::Waits
            }
            Came::GivesUp => {
                self.stop(process, proc);
                Looked::Waits
            }
        }
    }

    /// A lent process makes its own steps up to its next action, and it is told whether that can be made.
    fn look_on(&mut self, code: &Code, process: u32, mut proc: Proc) -> Result<Looked, ActFault>
        requires stands { Stands code.now self.old }
        requires lent { IsLent code.now self.old process process (state_of proc) }
        requires goes { self.old.halt ≡ None }
        ensures sees { IfOk result (λ looked. Sees code.now process (state_of proc) self.old self.new looked) }
        ensures looks { IfOk result (λ looked. LooksOn code.now process self.old self.new looked) }
        ensures entries { self.new.journal.entries ≡ self.old.journal.entries }
        ensures fails { OnErr result (Rests code.now self.old self.new) }
        ensures memory { IfErr result (λ why. why ≡ fault.OutOfMemory) }
        ensures limits { self.new.limits ≡ self.old.limits }
        ensures wrong { self.new.wrong ≡ wrong_after_look result process self.old.wrong }
        ensures tells { IfOk result (λ looked. SeesWrong code.now process self.old looked) }
    {
        let stepped = slice(self.alloc, &mut proc, code, &self.limits, ALL);
        let (came, memory) = came_of(stepped);
        let looked = self.seen(process, proc, came);
        if memory {
            Ok(looked)
        } else {
            Err(ActFault::OutOfMemory)
        }
    }

    /// Lets a process make its own steps up to its next action, and tells whether that can be made. It isn't made, and
    /// where it could be, it never is.
    ///
    /// The run goes on before it. `NotReady` exactly where there is no such process or it isn't ready.
    pub fn look(&mut self, code: &Code, process: u32) -> Result<Looked, ActFault>
        requires stands { Stands code.now self.old }
        requires goes { self.old.halt ≡ None }
        ensures sees { IfOk result (λ looked. LooksAs code.now process self.old self.new looked) }
        ensures looks { IfOk result (λ looked. LooksOn code.now process self.old self.new looked) }
        ensures entries { self.new.journal.entries ≡ self.old.journal.entries }
        ensures fails { OnErr result (Rests code.now self.old self.new) }
        ensures faults { IfErr result (λ why. FaultsBy process self.old why) }
        ensures limits { self.new.limits ≡ self.old.limits }
        ensures wrong { self.new.wrong ≡ wrong_after_look result process self.old.wrong }
        ensures tells { IfOk result (λ looked. SeesWrong code.now process self.old looked) }
    {
        match self.check_out(process, process) {
            Err(_) => Err(ActFault::NotReady),
            Ok(proc) => self.look_on(code, process, proc),
        }
    }
}
