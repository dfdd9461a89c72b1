//! A code run or replayed, up to its end.
ghost use Rattle.std.specs.Prelude.{◌≡◌, ◌<◌, None, Some, IfOk, IfSome, IsSome};
ghost use Rattle.ink_base.specs.Numbered.{numbered};
ghost use Rattle.ink_causes.specs.Devices.{sink_of};
ghost use Rattle.ink_code.specs.declared.code.Code.{Code as OneCode};
ghost use Rattle.ink_commands.specs.Meanings.{CauseMeans};
ghost use Rattle.ink_commands.specs.Reports.{PanickedIn, Reports, ReportsOf, told_report};
ghost use Rattle.ink_commands.specs.Runs.{IsUncut, RanCode, ReplayedCode, StillReplays, StopsAs, StopsAtOnce, StopsReplay, StopsRun, WritesUpTo, WroteAll, WroteFrom, WroteRounds, cause_by, replay_cause, rounds_cause, seen};
ghost use Rattle.ink_devices.specs.Outside.{greatest_count};
ghost use Rattle.ink_post.specs.Worlds.{Stands, proc_at};
ghost use Rattle.ink_replay.specs.declared.replaying.ReplayFault.TheVariants as unmade;
ghost use Rattle.ink_rounds.specs.Faults.{world_in};
ghost use Rattle.ink_run.specs.Sinks.{SinkState as SinkAt, sink_of as sink_at};
ghost use Rattle.ink_run.specs.Written.{IsWritten, KeepsWritten};
ghost use Rattle.ink_run.specs.declared.applied.BeginFault.TheVariants as begin;

use crate::outcome::Outcome;
use ink_base::{Journal, Limit, Limits, Text};
use ink_causes::Cause;
use ink_code::Code;
use ink_devices::Sink;
use ink_replay::{ReplayFault, ReplayStop, replay};
use ink_report::report;
use ink_rounds::{RoundFault, Stop, run_rounds};
use ink_run::{ActFault, Applied, BeginFault, End, World};
use std::alloc::{AllocError, Global};
use std::thread::Threads;

/// The cause that an end of a run is.
fn cause_of(end: End) -> Cause
    ensures is { result ≡ cause_by end }
    ensures stops { StopsRun result }
{
    match end {
        End::Quiet => Cause::Quiet,
        End::Waiting(process) => Cause::Waiting(process),
        End::Panicked(process) => Cause::Panicked(process),
        End::SinkFailed => Cause::WriteFault,
        End::Events(process) => Cause::EventLimit(process),
        End::Local(process, steps) => Cause::LocalLimit(process, steps),
        End::Wrong(process) => Cause::Wrong(process),
    }
}

/// The cause that a run in rounds stopped for.
fn cause_of_rounds(stop: Stop) -> Cause
    ensures is { result ≡ rounds_cause stop }
    ensures stops { StopsRun result }
{
    match stop {
        Stop::Ended(end) => cause_of(end),
        Stop::RoundLimit(budget) => Cause::RoundLimit(budget),
    }
}

/// The cause that a replay stopped for.
fn cause_of_replay(stop: ReplayStop) -> Cause
    ensures is { result ≡ replay_cause stop }
    ensures stops { StopsReplay result }
{
    match stop {
        ReplayStop::Ended(end) => cause_of(end),
        ReplayStop::JournalEnds(process) => Cause::JournalEnds(process),
        ReplayStop::BadEntry(entry) => Cause::BadEntry(entry),
    }
}

/// The report of the panic that a process made. Empty where there is none.
fn report_of<K: Sink + Drop>(
    alloc: Global,
    code: &Code,
    world: &World<K>,
    process: u32,
) -> Result<Text, AllocError>
    ensures { IfOk result (λ report. report ≡ told_report world.now.post.text (proc_at (numbered world.now.post.homes.items process)) code.now) }
{
    match (world.panic_text(), world.proc(process)) {
        (Some(text), Some(proc)) => report(alloc, text, proc, code),
        _ => Ok(Text::from_bytes(Vec::new(alloc))),
    }
}

/// The cause with the report that goes with it. Without memory for the report that is the cause.
fn reported<K: Sink + Drop>(
    alloc: Global,
    code: &Code,
    world: &World<K>,
    cause: Cause,
) -> (Cause, Text)
    ensures cause { StopsAs cause result.0 }
    ensures report { ReportsOf result.0 code.now world.now.post result.1 }
{
    let none = Text::from_bytes(Vec::new(alloc));
    match cause {
        Cause::Panicked(process) => match report_of(alloc, code, world, process) {
            Ok(report) => (Cause::Panicked(process), report),
            Err(_) => (Cause::OutOfMemory, none),
        },
        other => (other, none),
    }
}

/// What a run came to that stopped for this cause.
fn stopped<K: Sink + Drop>(alloc: Global, code: &Code, world: World<K>, cause: Cause) -> Outcome<K>
    ensures cause { StopsAs cause result.cause }
    ensures report { ReportsOf result.cause code.now world.post result.report }
    ensures journal { result.journal.entries ≡ world.post.journal.entries }
    ensures out { result.out ≡ world.sink }
{
    let (cause, report) = reported(alloc, code, &world, cause);
    let (journal, out) = world.finish();
    Outcome {
        cause,
        report,
        journal,
        out,
    }
}

/// Lets the least process that is ready make its next action. `Some` is the cause for which the run stops at once.
fn go_on<K: Sink + Drop>(code: &Code, world: &mut World<K>, process: u32) -> Option<Cause>
    requires { Stands code.now world.old.post }
    ensures stops { IfSome result StopsAtOnce }
    ensures stands { result ≡ None → Stands code.now world.new.post }
    ensures right { result ≡ None → world.new.post.wrong ≡ world.old.post.wrong }
    ensures means { IfSome result (λ cause. CauseMeans code.now world.new.post.limits None world.new.post.journal.entries cause) }
    ensures limits { world.new.post.limits ≡ world.old.post.limits }
    ensures goes { result ≡ None → KeepsWritten code.now world.old.post world.new.post (sink_at K.contents K.faults world.old.sink) (sink_at K.contents K.faults world.new.sink) }
    ensures wrote { IfSome result (λ cause. StillReplays code.now world.old.post world.new.post (sink_at K.contents K.faults world.old.sink) (sink_at K.contents K.faults world.new.sink)) }
{
    match world.act(code, process) {
        Err(ActFault::OutOfMemory) => Some(Cause::OutOfMemory),
        Err(ActFault::NotReady) => None,
        Ok(Applied::Wrong) => Some(Cause::Wrong(process)),
        Ok(Applied::Kept) => None,
        Ok(Applied::Moved) => None,
        Ok(Applied::Waits) => None,
        Ok(Applied::Panicked) => None,
        Ok(Applied::SinkFailed) => None,
        Ok(Applied::JournalFull) => None,
        Ok(Applied::Spent(_)) => None,
    }
}

/// The process that goes on: the least one that is ready, where the run hasn't ended.
fn next_of<K: Sink + Drop>(world: &World<K>) -> Option<u32>
    ensures { IsSome result → IsUncut world.now.post.halt }
{
    match world.end() {
        Some(_) => None,
        None => world.first_ready(),
    }
}

/// The cause for which a run stops where no process goes on. Without an end a process gave up, for want of memory.
fn stop_of<K: Sink + Drop>(world: &World<K>) -> Cause
    ensures stops { StopsRun result }
    ensures panicked { (code : OneCode) → Stands code world.now.post → PanickedIn result code world.now.post }
    ensures means { (code : OneCode) → Stands code world.now.post → world.now.post.wrong ≡ None → CauseMeans code world.now.post.limits None world.now.post.journal.entries result }
    ensures wrote { (code : OneCode) → WroteAll result code world.now.post (sink_at K.contents K.faults world.now.sink) }
{
    match world.end() {
        Some(end) => cause_of(end),
        None => Cause::OutOfMemory,
    }
}

/// Runs a code up to its end: the least process that is ready goes on, by one action at a time.
fn run_freely<K: Sink + Drop>(code: &Code, world: &mut World<K>) -> Cause
    requires stands { Stands code.now world.old.post }
    requires right { world.old.post.wrong ≡ None }
    ensures stops { StopsRun result }
    ensures panicked { PanickedIn result code.now world.new.post }
    ensures means { CauseMeans code.now world.new.post.limits None world.new.post.journal.entries result }
    ensures limits { world.new.post.limits ≡ world.old.post.limits }
    ensures wrote { WritesUpTo result code.now world.old.post world.new.post (sink_at K.contents K.faults world.old.sink) (sink_at K.contents K.faults world.new.sink) }
{
    for _ in 0..u64::MAX {
        let Some(process) = next_of(world) else {
            break;
        };
        if let Some(cause) = go_on(code, world, process) {
            return cause;
        }
    }
    stop_of(world)
}

/// What a run comes to that isn't made in rounds.
fn run_to_end<K: Sink + Drop>(alloc: Global, code: &Code, mut world: World<K>) -> Outcome<K>
    requires stands { Stands code.now world.post }
    requires right { world.post.wrong ≡ None }
    ensures stops { StopsRun result.cause }
    ensures means { CauseMeans code.now world.post.limits None result.journal.entries result.cause }
    ensures reports { Reports result.cause code.now world.post.limits result.journal.entries result.report }
    ensures wrote { (first : SinkAt) → first.faults < greatest_count → IsWritten code.now world.post first (sink_at K.contents K.faults world.sink) → WroteFrom result.cause code.now world.post.limits result.journal.entries first (sink_at K.contents K.faults result.out) }
{
    let cause = run_freely(code, &mut world);
    stopped(alloc, code, world, cause)
}

/// The world, which comes back from rounds that had no memory.
fn world_back<K: Sink + Drop>(fault: RoundFault<K>) -> World<K>
    ensures post { result.post ≡ (world_in fault).post }
    ensures sink { result.sink ≡ (world_in fault).sink }
{
    match fault {
        RoundFault::OutOfMemory(world) => world,
    }
}

/// Runs a code in rounds, at most so many.
fn run_in_rounds<R: Threads + Sync, K: Sink + Drop>(
    rt: &R,
    alloc: Global,
    code: &Code,
    world: World<K>,
    rounds: u64,
) -> Outcome<K>
    requires { Stands code.now world.post }
    ensures stops { StopsRun result.cause }
    ensures means { CauseMeans code.now world.post.limits (Some rounds) result.journal.entries result.cause }
    ensures reports { Reports result.cause code.now world.post.limits result.journal.entries result.report }
    ensures wrote { (first : SinkAt) → first.faults < greatest_count → IsWritten code.now world.post first (sink_at K.contents K.faults world.sink) → WroteRounds result.cause code.now world.post.limits result.journal.entries (record { before = seen first; after = seen (sink_at K.contents K.faults result.out) }) }
{
    let workers = world.limits().get(Limit::Workers) as u32;
    match run_rounds(rt, alloc, code, world, workers, rounds) {
        Err(fault) => stopped(alloc, code, world_back(fault), Cause::OutOfMemory),
        Ok(ran) => stopped(alloc, code, ran.world, cause_of_rounds(ran.stop)),
    }
}

/// The sink, which comes back where no run began.
fn sink_back<K: Sink + Drop>(fault: BeginFault<K>) -> K
    ensures { fault ≡ begin.OutOfMemory result }
{
    match fault {
        BeginFault::OutOfMemory(sink) => sink,
    }
}

/// Runs a code: in rounds, where `rounds` says how many at most, and else freely.
#[tactic(auto, using(crate::proofs::Written::stands_written, crate::proofs::Written::ran_not))]
pub fn run_code<R: Threads + Sync, K: Sink + Drop>(
    rt: &R,
    alloc: Global,
    code: &Code,
    limits: &Limits,
    rounds: Option<u64>,
    out: K,
) -> Outcome<K>
    requires { K.faults out < greatest_count }
    ensures reports { Reports result.cause code.now limits.now result.journal.entries result.report }
    ensures ran { RanCode code.now limits.now rounds result.cause result.journal.entries (record { before = sink_of K.contents K.faults out; after = sink_of K.contents K.faults result.out }) }
{
    match World::begin(alloc, code, *limits, out) {
        Err(fault) => Outcome::without_run(alloc, Cause::OutOfMemory, sink_back(fault)),
        Ok(world) => match rounds {
            Some(rounds) => run_in_rounds(rt, alloc, code, world, rounds),
            None => run_to_end(alloc, code, world),
        },
    }
}

/// The entries that were made and the sink, which come back from a replay that had no memory.
fn made_back<K: Sink + Drop>(fault: ReplayFault<K>) -> (Journal, K)
    ensures { fault ≡ unmade.OutOfMemory result.0 result.1 }
{
    match fault {
        ReplayFault::OutOfMemory { journal, sink } => (journal, sink),
    }
}

/// Runs a code as a journal says.
pub fn replay_code<K: Sink + Drop>(
    alloc: Global,
    code: &Code,
    limits: &Limits,
    journal: &Journal,
    out: K,
) -> Outcome<K>
    requires { K.faults out < greatest_count }
    ensures reports { Reports result.cause code.now limits.now result.journal.entries result.report }
    ensures replayed { ReplayedCode code.now limits.now journal.now.entries result.cause result.journal.entries (record { before = sink_of K.contents K.faults out; after = sink_of K.contents K.faults result.out }) }
{
    match replay(alloc, code, *limits, journal, out) {
        Err(fault) => {
            let (journal, out) = made_back(fault);
            Outcome {
                cause: Cause::OutOfMemory,
                report: Text::from_bytes(Vec::new(alloc)),
                journal,
                out,
            }
        }
        Ok(replayed) => stopped(alloc, code, replayed.world, cause_of_replay(replayed.stop)),
    }
}
