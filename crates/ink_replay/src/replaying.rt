//! The replay.
ghost use Rattle.std.specs.Prelude.{◌≡◌, [], None, IfErr, IfOk, OnErr};
ghost use Rattle.ink_post.specs.Worlds.{Stands};
ghost use Rattle.ink_replay.specs.Calm.{IsCalm};
ghost use Rattle.ink_replay.specs.Ends.{Means, StopsAt};
ghost use Rattle.ink_replay.specs.Entries.{Begins};
ghost use Rattle.ink_replay.specs.Faults.{made_of, sink_in};
ghost use Rattle.ink_replay.specs.Keeps.{GotWhole, IsUncut, Keeps};
ghost use Rattle.ink_replay.specs.Refusals.{Refuses};
ghost use Rattle.ink_replay.specs.Stops.{KeepsUntil, MadeBy, UncutAt, UnlessWrong, WroteBy};
ghost use Rattle.ink_run.specs.Sinks.{sink_of};
ghost use Rattle.ink_run.specs.Written.{IsWritten};
ghost use Rattle.ink_run.specs.declared.applied.BeginFault.TheVariants as begin;

use crate::entries::{Entries, make_entries};
use crate::rest::stop_behind;
use ink_base::{Journal, Limits};
use ink_code::Code;
use ink_devices::Sink;
use ink_run::{BeginFault, End, World};
use std::alloc::{AllocError, Global};

/// Where a replay stops.
#[derive(Clone, Copy)]
pub enum ReplayStop {
    /// The run ended.
    Ended(End),
    /// Each entry was made, and this is the least process whose next action can be made. No process before it made all
    /// the steps that it may make.
    JournalEnds(u32),
    /// The entry of this number, counted from 1, can't be made: there is no such process, it waits, or the run had ended.
    BadEntry(u64),
}

/// A run that was made again.
#[derive(Drop)]
pub struct Replayed<K: Drop> {
    pub world: World<K>,
    pub stop: ReplayStop,
}

/// Why a replay came to no stop. The entries that were made come back, and the sink.
#[derive(Drop)]
pub enum ReplayFault<K: Drop> {
    OutOfMemory { journal: Journal, sink: K },
}

/// The stop to which the entries of a journal lead. An `AllocError` is want of memory.
fn stop_of<K: Sink + Drop>(
    code: &Code,
    world: &mut World<K>,
    journal: &Journal,
) -> Result<ReplayStop, AllocError>
    requires stands { Stands code.now world.old.post }
    requires first { world.old.post.journal.entries ≡ [] }
    requires calm { IsCalm world.old.post }
    requires uncut { IsUncut world.old.post.halt }
    requires right { world.old.post.wrong ≡ None }
    ensures keeps { IfOk result (λ stop. KeepsUntil code.now stop world.old.post world.new.post (sink_of K.contents K.faults world.old.sink) (sink_of K.contents K.faults world.new.sink)) }
    ensures made { IfOk result (λ stop. MadeBy code.now world.new.post.limits stop journal.now.entries world.new.post.journal.entries) }
    ensures at { IfOk result (λ stop. StopsAt stop world.new.post) }
    ensures means { IfOk result (λ stop. Means code.now world.new.post.limits world.new.post.journal.entries stop) }
    ensures uncut { IfOk result (λ stop. UncutAt stop world.new.post) }
    ensures refuses { IfOk result (λ stop. Refuses code.now world.old.post.limits stop journal.now.entries) }
    ensures fails { OnErr result (Keeps code.now world.old.post world.new.post (sink_of K.contents K.faults world.old.sink) (sink_of K.contents K.faults world.new.sink)) }
    ensures goes { OnErr result (IsUncut world.new.post.halt) }
    ensures begins { OnErr result (Begins journal.now.entries world.new.post.journal.entries) }
{
    match make_entries(code, world, journal) {
        Err(error) => Err(error),
        Ok(Entries::Bad(entry)) => Ok(ReplayStop::BadEntry(entry)),
        Ok(Entries::Ended(end)) => Ok(ReplayStop::Ended(end)),
        Ok(Entries::All) => stop_behind(code, world),
    }
}

/// The sink, which comes back where no run began.
fn sink_back<K: Sink + Drop>(fault: BeginFault<K>) -> K
    ensures { fault ≡ begin.OutOfMemory result }
{
    match fault {
        BeginFault::OutOfMemory(sink) => sink,
    }
}

#[tactic(auto, using(crate::proofs::TurnLemmas::begins_calm))]
/// Makes a run of a code again from its journal, whose prints go out to a sink.
///
/// The entries are made in their order. The replay stops at the first that can't be made, at a sink that fails, and at a
/// process that makes as many steps on the way to its entry as it may make. Behind the last entry it looks at the processes
/// by number: the first that made so many steps, or whose next action can be made, decides, and where there is none the
/// run ended.
pub fn replay<K: Sink + Drop>(
    alloc: Global,
    code: &Code,
    limits: Limits,
    journal: &Journal,
    sink: K,
) -> Result<Replayed<K>, ReplayFault<K>>
    ensures made { IfOk result (λ replayed. MadeBy code.now limits replayed.stop journal.now.entries replayed.world.post.journal.entries) }
    ensures stops { IfOk result (λ replayed. StopsAt replayed.stop replayed.world.post) }
    ensures means { IfOk result (λ replayed. Means code.now limits replayed.world.post.journal.entries replayed.stop) }
    ensures refuses { IfOk result (λ replayed. Refuses code.now limits replayed.stop journal.now.entries) }
    ensures stands { IfOk result (λ replayed. UnlessWrong replayed.stop (Stands code.now replayed.world.post)) }
    ensures written { IfOk result (λ replayed. UnlessWrong replayed.stop (IsWritten code.now replayed.world.post (sink_of K.contents K.faults sink) (sink_of K.contents K.faults replayed.world.sink))) }
    ensures wrote { IfOk result (λ replayed. WroteBy code.now limits replayed.world.post.journal.entries replayed.stop (sink_of K.contents K.faults sink) (sink_of K.contents K.faults replayed.world.sink)) }
    ensures limits { IfOk result (λ replayed. replayed.world.post.limits ≡ limits) }
    ensures begins { IfErr result (λ fault. Begins journal.now.entries (made_of fault)) }
    ensures whole { IfErr result (λ fault. GotWhole code.now limits (made_of fault) (sink_of K.contents K.faults sink) (sink_of K.contents K.faults (sink_in fault))) }
{
    let mut world = match World::begin(alloc, code, limits, sink) {
        Ok(world) => world,
        Err(fault) => {
            return Err(ReplayFault::OutOfMemory {
                journal: Journal::new(alloc),
                sink: sink_back(fault),
            });
        }
    };
    match stop_of(code, &mut world, journal) {
        Ok(stop) => Ok(Replayed { world, stop }),
        Err(_) => {
            let (journal, sink) = world.finish();
            Err(ReplayFault::OutOfMemory { journal, sink })
        }
    }
}
