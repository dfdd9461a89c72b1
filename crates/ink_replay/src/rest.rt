//! How a run stands behind the last entry of its journal.
ghost use Rattle.std.specs.Prelude.{◌≡◌, None, IfOk, OnErr};
ghost use Rattle.ink_post.specs.Worlds.{Stands};
ghost use Rattle.ink_replay.specs.Calm.{AreAtRest, IsCalm, NoneReadyBefore};
ghost use Rattle.ink_replay.specs.Entries.{AddsNone};
ghost use Rattle.ink_replay.specs.Keeps.{IsUncut, Keeps};
ghost use Rattle.ink_replay.specs.Stops.{Behind, FindsStop};
ghost use Rattle.ink_run.specs.Sinks.{sink_of};

use crate::replaying::ReplayStop;
use ink_code::Code;
use ink_devices::Sink;
use ink_run::{End, Looked, World};
use std::alloc::AllocError;

/// What is found at the least process that is ready: that a replay stops there, or nothing, where it waits.
fn stop_at<K: Sink + Drop>(
    code: &Code,
    world: &mut World<K>,
    process: u32,
) -> Result<Option<ReplayStop>, AllocError>
    requires stands { Stands code.now world.old.post }
    requires goes { world.old.post.halt ≡ None }
    requires rest { AreAtRest world.old.post.statuses.items }
    requires first { NoneReadyBefore process world.old.post.statuses.items }
    ensures finds { IfOk result (λ stop. FindsStop code.now stop world.old.post world.new.post (sink_of K.contents K.faults world.old.sink) (sink_of K.contents K.faults world.new.sink)) }
    ensures keeps { OnErr result (Keeps code.now world.old.post world.new.post (sink_of K.contents K.faults world.old.sink) (sink_of K.contents K.faults world.new.sink)) }
    ensures still { OnErr result (world.new.post.halt ≡ None) }
    ensures none { AddsNone world.old.post world.new.post }
{
    match world.look(code, process) {
        // It is ready, so this is want of memory.
        Err(_) => Err(AllocError),
        Ok(Looked::Waits) => Ok(None),
        Ok(Looked::Enabled) => Ok(Some(ReplayStop::JournalEnds(process))),
        Ok(Looked::Spent(steps)) => Ok(Some(ReplayStop::Ended(End::Local(process, steps)))),
        Ok(Looked::Wrong) => Ok(Some(ReplayStop::Ended(End::Wrong(process)))),
    }
}

/// Looks at the processes that are ready, the least first, up to the one at which a replay stops: its next action can be
/// made, or it made so many steps that it may make no more.
fn first_stop<K: Sink + Drop>(
    code: &Code,
    world: &mut World<K>,
) -> Result<Option<ReplayStop>, AllocError>
    requires stands { Stands code.now world.old.post }
    requires goes { world.old.post.halt ≡ None }
    requires rest { AreAtRest world.old.post.statuses.items }
    ensures finds { IfOk result (λ stop. FindsStop code.now stop world.old.post world.new.post (sink_of K.contents K.faults world.old.sink) (sink_of K.contents K.faults world.new.sink)) }
    ensures keeps { OnErr result (Keeps code.now world.old.post world.new.post (sink_of K.contents K.faults world.old.sink) (sink_of K.contents K.faults world.new.sink)) }
    ensures still { OnErr result (world.new.post.halt ≡ None) }
    ensures none { AddsNone world.old.post world.new.post }
{
    for _ in 0..world.count() {
        let Some(process) = world.first_ready() else {
            return Ok(None);
        };
        match stop_at(code, world, process) {
            Err(error) => return Err(error),
            Ok(None) => {}
            Ok(Some(stop)) => return Ok(Some(stop)),
        }
    }
    Ok(None)
}

/// Where a run stops of which each entry was made. An `AllocError` is want of memory.
pub(crate) fn stop_behind<K: Sink + Drop>(
    code: &Code,
    world: &mut World<K>,
) -> Result<ReplayStop, AllocError>
    requires stands { Stands code.now world.old.post }
    requires calm { IsCalm world.old.post }
    requires uncut { IsUncut world.old.post.halt }
    requires right { world.old.post.wrong ≡ None }
    ensures behind { IfOk result (λ stop. Behind code.now stop world.old.post world.new.post (sink_of K.contents K.faults world.old.sink) (sink_of K.contents K.faults world.new.sink)) }
    ensures keeps { OnErr result (Keeps code.now world.old.post world.new.post (sink_of K.contents K.faults world.old.sink) (sink_of K.contents K.faults world.new.sink)) }
    ensures goes { OnErr result (IsUncut world.new.post.halt) }
    ensures none { AddsNone world.old.post world.new.post }
{
    if let Some(end) = world.end() {
        return Ok(ReplayStop::Ended(end));
    }
    match first_stop(code, world) {
        Err(error) => Err(error),
        Ok(Some(stop)) => Ok(stop),
        // Each of them waits then, and so the run ended.
        Ok(None) => match world.end() {
            Some(end) => Ok(ReplayStop::Ended(end)),
            None => Err(AllocError),
        },
    }
}
