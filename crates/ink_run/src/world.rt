//! All processes of a run, at home or lent, what they share, and where their prints go.
ghost use Rattle.std.specs.Prelude.{◌≡◌, ◌+◌, ◌++◌, ◌∷◌, ℕ, List, [], IfErr, IfOk, IfSome, None, OnErr, Result, length};
ghost use Rattle.std.specs.List.{list_any, position};
ghost use Rattle.std.specs.Option.{option_copied, option_map};
ghost use Rattle.ink_base.specs.Numbered.{numbered};
ghost use Rattle.ink_law_runs.specs.CodeMachine.{opening_run};
ghost use Rattle.ink_code.specs.declared.code.Code.{Code as OneCode};
ghost use Rattle.ink_post.specs.Answers.{Lends, OthersStay, WantsMemory};
ghost use Rattle.ink_post.specs.Asks.{IsComing, IsLent, NoneReady, told_came};
ghost use Rattle.ink_post.specs.Ends.{end_in};
ghost use Rattle.ink_post.specs.Meaning.{Ends};
ghost use Rattle.ink_post.specs.Turning.{FaultsBy, LooksAs, SeesWrong, wrong_after_look};
ghost use Rattle.ink_post.specs.Worlds.{Same, Stands, proc_at, world_of};
ghost use Rattle.ink_post.specs.declared.answer.Came.TheVariants as home;
ghost use Rattle.ink_proc.specs.State.{state_of};
ghost use Rattle.ink_run.specs.Sinks.{sink_of};
ghost use Rattle.ink_run.specs.Written.{ActsOut, AddsBy, ChecksOut, IsWritten, KeepsWritten, LooksOn, LooksWritten, StandsOn, StaysWritten, TellsWrong, Writes, WritesLine, wrong_after};
ghost use Rattle.ink_run.specs.declared.applied.BeginFault.TheVariants as begin;
ghost use Rattle.ink_statuses.specs.Readings.{is_out, is_ready};
ghost use Rattle.ink_worlds.specs.State.{first_state, put_in};
ghost use Rattle.ink_worlds.specs.declared.status.Status.TheVariants.{Stopped};

use crate::applied::{Applied, BeginFault};
use crate::line::write_line;
use ink_base::{Journal, Limits, Text};
use ink_code::Code;
use ink_devices::Sink;
use ink_post::{ActFault, Answer, Came, CheckFault, End, Looked, NotReady, Post};
use ink_proc::Proc;
use std::alloc::{AllocError, Global};

/// A run, and the sink to which its prints go.
#[derive(Drop)]
pub struct World<K: Drop> {
    post: Post,
    sink: K,
}

impl<K: Sink + Drop> World<K> {
    /// The run of a code as it begins: one process, with the first message. Nothing is written.
    pub fn begin(
        alloc: Global,
        code: &Code,
        limits: Limits,
        sink: K,
    ) -> Result<World<K>, BeginFault<K>>
        ensures begins { IfOk result (λ world. world_of world.post [] ≡ first_state (opening_run code.now)) }
        ensures limits { IfOk result (λ world. world.post.limits ≡ limits) }
        ensures wrong { IfOk result (λ world. world.post.wrong ≡ None) }
        ensures sink { IfOk result (λ world. world.sink ≡ sink) }
        ensures written { IfOk result (λ world. IsWritten code.now world.post (sink_of K.contents K.faults sink) (sink_of K.contents K.faults world.sink)) }
        ensures back { IfErr result (λ fault. fault ≡ begin.OutOfMemory sink) }
    {
        match Post::begin(alloc, code, limits) {
            Ok(post) => Ok(World { post, sink }),
            Err(_) => Err(BeginFault::OutOfMemory(sink)),
        }
    }

    /// How many processes there are.
    pub fn count(&self) -> u32
        ensures { result ≡ length self.now.post.statuses.items }
    {
        self.post.count()
    }

    /// The limits of the run.
    pub fn limits(&self) -> &Limits
        ensures { result.now ≡ self.now.post.limits }
    {
        self.post.limits()
    }

    /// Makes room for one entry more.
    pub fn reserve(&mut self) -> Result<(), AllocError>
        ensures same { Same self.old.post self.new.post }
        ensures wrong { self.new.post.wrong ≡ self.old.post.wrong }
        ensures sink { self.new.sink ≡ self.old.sink }
    {
        self.post.reserve()
    }

    /// What a check-in came to, after what it prints went out: the entry is made before the first byte.
    fn written(&mut self, answer: Answer) -> Applied
        ensures { Writes answer self.old.post self.new.post (sink_of K.contents K.faults self.old.sink) (sink_of K.contents K.faults self.new.sink) result }
    {
        match answer {
            Answer::Kept => Applied::Kept,
            Answer::Moved => Applied::Moved,
            Answer::Printed(text) => self.line_out(&text),
            Answer::Waits => Applied::Waits,
            Answer::Panicked => Applied::Panicked,
            Answer::JournalFull => Applied::JournalFull,
            Answer::Spent(steps) => Applied::Spent(steps),
            Answer::Wrong => Applied::Wrong,
        }
    }

    /// A line goes out, and a sink that fails ends the run.
    fn line_out(&mut self, text: &Text) -> Applied
        ensures { WritesLine (text.now ++ 10 ∷ []) self.old.post self.new.post (sink_of K.contents K.faults self.old.sink) (sink_of K.contents K.faults self.new.sink) result }
    {
        match write_line(&mut self.sink, text) {
            Ok(()) => Applied::Moved,
            Err(_) => {
                self.post.fail_sink();
                Applied::SinkFailed
            }
        }
    }

    /// Lends a process that is ready to a seat. `NotReady` exactly where there is none of that number, or it isn't ready. It
    /// takes no memory.
    pub fn check_out(&mut self, process: u32, seat: u32) -> Result<Proc, NotReady>
        ensures lends { IfOk result (λ proc. Lends process seat self.old.post self.new.post (state_of proc)) }
        ensures lent { (code : OneCode) → Stands code self.old.post → IfOk result (λ proc. IsLent code self.new.post process seat (state_of proc)) }
        ensures stands { (code : OneCode) → Stands code self.old.post → Stands code self.new.post }
        ensures others { (code : OneCode) → OthersStay code process self.old.post self.new.post }
        ensures none { OnErr result (NoneReady process self.old.post) }
        ensures same { OnErr result (Same self.old.post self.new.post) }
        ensures limits { self.new.post.limits ≡ self.old.post.limits }
        ensures wrong { self.new.post.wrong ≡ self.old.post.wrong }
        ensures sink { self.new.sink ≡ self.old.sink }
    {
        self.post.check_out(process, seat)
    }

    /// A lent process comes home, and what it came to is done.
    ///
    /// After an end it only comes home. Without memory all stays, and the process and what it came with come back: then it
    /// can be tried again, or come home giving up. With `Went` and `GivesUp` no memory is wanted.
    pub fn check_in(
        &mut self,
        code: &Code,
        process: u32,
        seat: u32,
        proc: Proc,
        came: Came,
    ) -> Result<Applied, CheckFault>
        requires stands { Stands code.now self.old.post }
        requires comes { IsComing code.now self.old.post process seat came (state_of proc) }
        ensures checks { IfOk result (λ applied. ChecksOut code.now process came (state_of proc) self.old.post self.new.post (sink_of K.contents K.faults self.old.sink) (sink_of K.contents K.faults self.new.sink) applied) }
        ensures written { IfOk result (λ applied. StaysWritten code.now self.old.post self.new.post (sink_of K.contents K.faults self.old.sink) (sink_of K.contents K.faults self.new.sink) applied) }
        ensures stands { IfOk result (λ applied. StandsOn code.now self.new.post applied) }
        ensures again { OnErr result (Stands code.now self.new.post) }
        ensures same { OnErr result (Same self.old.post self.new.post) }
        ensures memory { OnErr result (WantsMemory (told_came came)) }
        ensures still { OnErr result (KeepsWritten code.now self.old.post self.new.post (sink_of K.contents K.faults self.old.sink) (sink_of K.contents K.faults self.new.sink)) }
        ensures gives { IfErr result (λ fault. IsComing code.now self.new.post process seat home.GivesUp (state_of fault.proc)) }
        ensures others { OthersStay code.now process self.old.post self.new.post }
        ensures sink { OnErr result (self.new.sink ≡ self.old.sink) }
        ensures limits { self.new.post.limits ≡ self.old.post.limits }
        ensures wrong { self.new.post.wrong ≡ wrong_after result process self.old.post.wrong }
        ensures tells { IfOk result (λ applied. TellsWrong code.now process self.old.post applied) }
    {
        match self.post.check_in(code, process, seat, proc, came) {
            Err(fault) => Err(fault),
            Ok(answer) => Ok(self.written(answer)),
        }
    }

    /// A process is gone, lent or not, and makes no further step. Nothing is asked of it, and all else stays.
    pub fn abandon(&mut self, process: u32)
        ensures after { (output : List ℕ) → world_of self.new.post output ≡ put_in process None Stopped (world_of self.old.post output) }
        ensures limits { self.new.post.limits ≡ self.old.post.limits }
        ensures wrong { self.new.post.wrong ≡ self.old.post.wrong }
        ensures sink { self.new.sink ≡ self.old.sink }
    {
        self.post.abandon(process);
    }

    /// Lets a process make its own steps up to its next action, and makes that.
    ///
    /// `NotReady` exactly where there is no such process or it isn't ready. Without memory no entry is added, and where the
    /// process came to its action already, that is never made.
    pub fn act(&mut self, code: &Code, process: u32) -> Result<Applied, ActFault>
        requires { Stands code.now self.old.post }
        ensures acts { IfOk result (λ applied. ActsOut code.now process self.old.post self.new.post (sink_of K.contents K.faults self.old.sink) (sink_of K.contents K.faults self.new.sink) applied) }
        ensures stands { IfOk result (λ applied. StandsOn code.now self.new.post applied) }
        ensures fails { OnErr result (Stands code.now self.new.post) }
        ensures limits { self.new.post.limits ≡ self.old.post.limits }
        ensures wrong { self.new.post.wrong ≡ wrong_after result process self.old.post.wrong }
        ensures tells { IfOk result (λ applied. TellsWrong code.now process self.old.post applied) }
        ensures written { IfOk result (λ applied. StaysWritten code.now self.old.post self.new.post (sink_of K.contents K.faults self.old.sink) (sink_of K.contents K.faults self.new.sink) applied) }
        ensures still { OnErr result (KeepsWritten code.now self.old.post self.new.post (sink_of K.contents K.faults self.old.sink) (sink_of K.contents K.faults self.new.sink)) }
        ensures adds { IfOk result (λ applied. AddsBy process applied self.old.post.journal.entries self.new.post.journal.entries) }
        ensures same { OnErr result (self.new.post.journal.entries ≡ self.old.post.journal.entries) }
        ensures goes { OnErr result (self.new.post.halt ≡ self.old.post.halt) }
        ensures faults { IfErr result (λ why. FaultsBy process self.old.post why) }
    {
        match self.post.act(code, process) {
            Err(fault) => Err(fault),
            Ok(answer) => Ok(self.written(answer)),
        }
    }

    /// Lets a process make its own steps up to its next action, and tells whether that can be made. It isn't made, and
    /// where it could be, it never is. Nothing is written.
    ///
    /// The run goes on before it. `NotReady` exactly where there is no such process or it isn't ready.
    pub fn look(&mut self, code: &Code, process: u32) -> Result<Looked, ActFault>
        requires stands { Stands code.now self.old.post }
        requires goes { self.old.post.halt ≡ None }
        ensures sees { IfOk result (λ looked. LooksAs code.now process self.old.post self.new.post looked) }
        ensures looks { IfOk result (λ looked. LooksOn code.now self.old.post self.new.post looked) }
        ensures written { IfOk result (λ looked. LooksWritten code.now self.old.post self.new.post (sink_of K.contents K.faults self.old.sink) (sink_of K.contents K.faults self.new.sink) looked) }
        ensures fails { OnErr result (Stands code.now self.new.post × (self.new.post.halt ≡ None)) }
        ensures still { OnErr result (KeepsWritten code.now self.old.post self.new.post (sink_of K.contents K.faults self.old.sink) (sink_of K.contents K.faults self.new.sink)) }
        ensures journal { self.new.post.journal.entries ≡ self.old.post.journal.entries }
        ensures sink { self.new.sink ≡ self.old.sink }
        ensures limits { self.new.post.limits ≡ self.old.post.limits }
        ensures wrong { self.new.post.wrong ≡ wrong_after_look result process self.old.post.wrong }
        ensures tells { IfOk result (λ looked. SeesWrong code.now process self.old.post looked) }
        ensures faults { IfErr result (λ why. FaultsBy process self.old.post why) }
    {
        match self.post.look(code, process) {
            Err(fault) => Err(fault),
            Ok(looked) => Ok(looked),
        }
    }

    /// How the run ended. `None` where it goes on: a process is ready or lent, or stopped without an end.
    pub fn end(&self) -> Option<End>
        ensures is { result ≡ end_in self.now.post.halt self.now.post.wrong self.now.post.statuses.items }
        ensures means { (code : OneCode) → Stands code self.now.post → self.now.post.wrong ≡ None → IfSome result (λ end. Ends code self.now.post.limits self.now.post.journal.entries end) }
    {
        self.post.end()
    }

    /// The least process that is ready. `None` exactly where there is none.
    pub fn first_ready(&self) -> Option<u32>
        ensures { result ≡ option_map (λ index. index + 1) (position is_ready self.now.post.statuses.items) }
    {
        self.post.first_ready()
    }

    /// Whether a process is lent.
    pub fn any_out(&self) -> bool
        ensures { result ≡ list_any is_out self.now.post.statuses.items }
    {
        self.post.any_out()
    }

    /// The text of the panic that is the last entry. `None` exactly where that is none.
    pub fn panic_text(&self) -> Option<&Text>
        ensures { option_copied result ≡ self.now.post.text }
    {
        self.post.panic_text()
    }

    /// A process at home. `None` exactly where there is none of that number, or it is lent or gone.
    pub fn proc(&self, process: u32) -> Option<&Proc>
        ensures { option_copied result ≡ proc_at (numbered self.now.post.homes.items process) }
    {
        self.post.proc(process)
    }

    /// The journal so far.
    pub fn journal(&self) -> &Journal
        ensures { result.now ≡ self.now.post.journal }
    {
        self.post.journal()
    }

    /// The journal, and the sink.
    pub fn finish(self) -> (Journal, K)
        ensures journal { result.0 ≡ self.post.journal }
        ensures sink { result.1 ≡ self.sink }
    {
        let World { post, sink } = self;
        (post.into_journal(), sink)
    }
}
