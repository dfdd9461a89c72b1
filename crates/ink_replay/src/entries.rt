//! The entries of a journal, made one by one.
ghost use Rattle.std.specs.Prelude.{◌≡◌, [], IfOk, OnErr};
ghost use Rattle.std.specs.Option.{is_some};
ghost use Rattle.ink_post.specs.Worlds.{Stands};
ghost use Rattle.ink_replay.specs.Calm.{CalmAll, EntersCalm, IsCalm};
ghost use Rattle.ink_replay.specs.Ends.{EndsAll, EntersEnd};
ghost use Rattle.ink_replay.specs.Entries.{AddsNone, Begins, Enters, EntersAll, EntersUncut, KeepsAll, UncutAll, entered_by};
ghost use Rattle.ink_replay.specs.Keeps.{IsUncut, Keeps};
ghost use Rattle.ink_replay.specs.Refusals.{FailsStuck, RefusesIn};
ghost use Rattle.ink_run.specs.Sinks.{sink_of};

use ink_base::Journal;
use ink_code::Code;
use ink_devices::Sink;
use ink_run::{ActFault, Applied, End, World};
use std::alloc::AllocError;

/// What became of an entry.
#[derive(Clone, Copy)]
enum Entered {
    /// It was made.
    Made,
    /// The process it names has no next action, or that can't be made.
    Fails,
    /// The run ended with it, or before it.
    Ends(End),
}

/// How the entries of a journal came out.
#[derive(Clone, Copy)]
pub(crate) enum Entries {
    /// Each of them was made.
    All,
    /// This one can't be made, counted from 1.
    Bad(u64),
    /// The run ended at one of them.
    Ended(End),
}

/// What it means for an entry that its process came to this.
fn entry_of(process: u32, applied: Applied) -> Entered
    ensures { result ≡ entered_by process applied }
{
    match applied {
        Applied::Moved => Entered::Made,
        Applied::Panicked => Entered::Made,
        Applied::Kept => Entered::Fails,
        Applied::Waits => Entered::Fails,
        Applied::SinkFailed => Entered::Ends(End::SinkFailed),
        Applied::JournalFull => Entered::Ends(End::Events(process)),
        Applied::Spent(steps) => Entered::Ends(End::Local(process, steps)),
        Applied::Wrong => Entered::Ends(End::Wrong(process)),
    }
}

/// Whether a panic ended the run.
fn is_over<K: Sink + Drop>(world: &World<K>) -> bool
    ensures { result ≡ is_some world.now.post.text }
{
    world.panic_text().is_some()
}

#[tactic(auto, using(crate::proofs::EndLemmas::enters_end, crate::proofs::EndLemmas::enters_uncut, crate::proofs::EndLemmas::kept_uncut, crate::proofs::TurnLemmas::enters_calm, crate::proofs::StuckLemmas::fails_unready, crate::proofs::StuckLemmas::fails_waits, crate::proofs::StuckLemmas::fails_over))]
/// Makes the entry of a process. An `AllocError` is want of memory: the entry wasn't made.
fn make_entry<K: Sink + Drop>(
    code: &Code,
    world: &mut World<K>,
    process: u32,
) -> Result<Entered, AllocError>
    requires stands { Stands code.now world.old.post }
    requires calm { IsCalm world.old.post }
    requires uncut { IsUncut world.old.post.halt }
    ensures enters { IfOk result (λ entered. Enters code.now process entered world.old.post world.new.post (sink_of K.contents K.faults world.old.sink) (sink_of K.contents K.faults world.new.sink)) }
    ensures ends { IfOk result (λ entered. EntersEnd entered world.new.post) }
    ensures calm { IfOk result (λ entered. EntersCalm entered world.new.post) }
    ensures uncut { IfOk result (λ entered. EntersUncut entered world.new.post) }
    ensures stuck { IfOk result (λ entered. FailsStuck code.now process entered world.new.post) }
    ensures keeps { OnErr result (Keeps code.now world.old.post world.new.post (sink_of K.contents K.faults world.old.sink) (sink_of K.contents K.faults world.new.sink)) }
    ensures goes { OnErr result (IsUncut world.new.post.halt) }
    ensures none { OnErr result (AddsNone world.old.post world.new.post) }
{
    match world.act(code, process) {
        Err(ActFault::OutOfMemory) => Err(AllocError),
        Err(ActFault::NotReady) => Ok(Entered::Fails),
        // In a run that goes on it comes home so where there is no memory.
        Ok(Applied::Kept) => {
            if is_over(world) {
                Ok(Entered::Fails)
            } else {
                Err(AllocError)
            }
        }
        Ok(applied) => Ok(entry_of(process, applied)),
    }
}

#[tactic(auto, using(crate::proofs::TurnLemmas::no_journal))]
/// Makes the entries of a journal in their order, up to the first that can't be made or that ends the run before all are
/// made. An `AllocError` is want of memory: the entries up to there were made.
pub(crate) fn make_entries<K: Sink + Drop>(
    code: &Code,
    world: &mut World<K>,
    journal: &Journal,
) -> Result<Entries, AllocError>
    requires stands { Stands code.now world.old.post }
    requires first { world.old.post.journal.entries ≡ [] }
    requires calm { IsCalm world.old.post }
    requires uncut { IsUncut world.old.post.halt }
    ensures keeps { IfOk result (λ entries. KeepsAll code.now entries world.old.post world.new.post (sink_of K.contents K.faults world.old.sink) (sink_of K.contents K.faults world.new.sink)) }
    ensures made { IfOk result (λ entries. EntersAll entries journal.now.entries world.new.post.journal.entries) }
    ensures ends { IfOk result (λ entries. EndsAll entries world.new.post) }
    ensures calm { IfOk result (λ entries. CalmAll entries world.new.post) }
    ensures uncut { IfOk result (λ entries. UncutAll entries world.new.post) }
    ensures refuses { IfOk result (λ entries. RefusesIn code.now world.old.post.limits entries journal.now.entries) }
    ensures fails { OnErr result (Keeps code.now world.old.post world.new.post (sink_of K.contents K.faults world.old.sink) (sink_of K.contents K.faults world.new.sink)) }
    ensures goes { OnErr result (IsUncut world.new.post.halt) }
    ensures begins { OnErr result (Begins journal.now.entries world.new.post.journal.entries) }
{
    for index in 0..journal.len() {
        let Some(process) = journal.get(index) else {
            return Ok(Entries::All);
        };
        match make_entry(code, world, process) {
            Err(error) => return Err(error),
            Ok(Entered::Made) => {}
            Ok(Entered::Fails) => return Ok(Entries::Bad(index + 1)),
            Ok(Entered::Ends(end)) => return Ok(Entries::Ended(end)),
        }
    }
    Ok(Entries::All)
}
