//! A round.
ghost use Rattle.std.specs.Prelude.{◌≡◌, ◌≢◌, ◌<◌, ℕ, [], IfOk, OnOk, length, reverse, slice_index_or};
ghost use Rattle.ink_code.specs.declared.code.Code.{Code as OneCode};
ghost use Rattle.ink_post.specs.Asks.{IsComing};
ghost use Rattle.ink_post.specs.Worlds.{Stands};
ghost use Rattle.ink_proc.specs.State.{state_of};
ghost use Rattle.ink_rounds.specs.Homes.{Leaves, WritesOn};
ghost use Rattle.ink_rounds.specs.Lent.{AreHomeward, AreSliced, HasLent, IsHomeward, IsSliced};
ghost use Rattle.ink_rounds.specs.Machine.{FollowsAll, FollowsNext, FollowsRound, LendsAll, MakesNothing, gone_of, idle_came};
ghost use Rattle.ink_rounds.specs.declared.lent.Lent.{Lent as OneLent};
ghost use Rattle.ink_run.specs.Sinks.{sink_of};
ghost use Rattle.ink_run.specs.declared.applied.Applied.TheVariants as answer;

use crate::lent::Lent;
use ink_base::{Limit, Limits};
use ink_code::Code;
use ink_devices::Sink;
use ink_proc::Proc;
use ink_run::{Applied, Came, CheckFault, World};
use std::alloc::Global;
use std::thread;
use std::thread::Threads;

/// So many steps take about as long as it takes to start a few threads and to wait for them.
const THREAD_STEPS: u64 = 50_000;

/// The code of this process is wrong.
#[derive(Clone, Copy)]
pub(crate) struct WrongCode(pub(crate) u32);

/// Lends the processes that are ready, by number, each under the seat of its own number. `false` where some of them aren't
/// lent, for want of memory.
fn lend_all<K: Sink + Drop>(world: &mut World<K>, lent: &mut Vec<Lent>) -> bool
    requires none { lent.old.items ≡ [] }
    ensures lends { (code : OneCode) → Stands code world.old.post → HasLent code world.new.post lent.new.items }
    ensures all { LendsAll result world.old.post world.new.post (gone_of lent.new.items) }
    ensures limits { world.new.post.limits ≡ world.old.post.limits }
    ensures written { (code : OneCode) → WritesOn code world.old.post world.new.post (sink_of K.contents K.faults world.old.sink) (sink_of K.contents K.faults world.new.sink) }
{
    while let Some(number) = world.first_ready() {
        if lent.reserve(1).is_err() {
            return false;
        }
        match world.check_out(number, number) {
            Err(_) => return false,
            Ok(proc) => lent.push_reserved(Lent::of(number, proc)),
        }
    }
    true
}

/// Each process makes its slice, by at most so many threads.
fn make_slices<R: Threads + Sync>(
    rt: &R,
    alloc: Global,
    code: &Code,
    limits: &Limits,
    lent: &mut [Lent],
    workers: usize,
)
    requires { 0 < workers }
    ensures each { (i : ℕ) (d : OneLent) → i < length lent.old → IsSliced code.now limits.now (slice_index_or lent.old i d) (slice_index_or lent.new i d) }
    ensures count { length lent.new ≡ length lent.old }
{
    thread::for_each_mut(
        rt,
        lent,
        workers,
        &|_: usize, one: &mut Lent|
            ensures { IsSliced code.entry.now limits.entry.now one.entry.now one.exit.now }
        { one.make_slice(alloc, code, limits) },
    );
}

/// By how many threads so many processes make their slices: by one where all of them together make fewer steps than a thread
/// costs, and else by no more than there are processes.
fn threads_for(lent: usize, limits: &Limits, workers: usize) -> usize
    ensures { 0 < result }
{
    let steps = limits.get(Limit::Slice).saturating_mul(lent as u64);
    if steps < THREAD_STEPS {
        1
    } else {
        workers.min(lent).max(1)
    }
}

/// The same of the processes of a vector.
fn slice_all<R: Threads + Sync>(
    rt: &R,
    alloc: Global,
    code: &Code,
    limits: &Limits,
    lent: &mut Vec<Lent>,
    workers: usize,
)
    requires { 0 < workers }
    ensures { AreSliced code.now limits.now lent.old.items lent.new.items }
{
    let threads = threads_for(lent.len(), limits, workers);
    make_slices(rt, alloc, code, limits, lent.as_mut_slice(), threads);
}

/// The last comes first.
fn turn_round(lent: &mut Vec<Lent>)
    ensures { lent.new.items ≡ reverse lent.old.items }
{
    lent.as_mut_slice().reverse();
}

/// An error where a check-in answers that the code is wrong.
fn right(number: u32, applied: Applied) -> Result<(), WrongCode>
    ensures { OnOk result (applied ≢ answer.Wrong) }
{
    match applied {
        Applied::Wrong => Err(WrongCode(number)),
        Applied::Kept => Ok(()),
        Applied::Moved => Ok(()),
        Applied::Waits => Ok(()),
        Applied::Panicked => Ok(()),
        Applied::SinkFailed => Ok(()),
        Applied::JournalFull => Ok(()),
        Applied::Spent(_) => Ok(()),
    }
}

/// With what a process comes home whose action is never made. That its code is wrong is told all the same.
fn idle(came: Came) -> Came
    ensures { result ≡ idle_came came }
{
    match came {
        Came::Wrong => Came::Wrong,
        Came::Went => Came::GivesUp,
        Came::GivesUp => Came::GivesUp,
        Came::Wants(_) => Came::GivesUp,
        Came::Panics(_) => Came::GivesUp,
        Came::Spent(_) => Came::GivesUp,
    }
}

/// Brings a process home with what makes no action.
fn come_idle<K: Sink + Drop>(
    code: &Code,
    world: &mut World<K>,
    number: u32,
    proc: Proc,
    came: Came,
) -> Result<(), WrongCode>
    requires stands { Stands code.now world.old.post }
    requires comes { IsComing code.now world.old.post number number came (state_of proc) }
    requires idle { MakesNothing came }
    ensures leaves { OnOk result (Leaves code.now number world.old.post world.new.post) }
    ensures written { OnOk result (WritesOn code.now world.old.post world.new.post (sink_of K.contents K.faults world.old.sink) (sink_of K.contents K.faults world.new.sink)) }
    ensures limits { OnOk result (world.new.post.limits ≡ world.old.post.limits) }
    ensures journal { OnOk result (world.new.post.journal.entries ≡ world.old.post.journal.entries) }
{
    match world.check_in(code, number, number, proc, came) {
        Ok(applied) => {
            match right(number, applied) {
                Err(why) => Err(why),
                Ok(()) => Ok(()),
            }
        }
        Err(_) => unreachable!(),
    }
}

/// Brings a process home, and what it came to is done. `false` without memory for its slice or its action.
fn bring_home<K: Sink + Drop>(
    code: &Code,
    world: &mut World<K>,
    one: Lent,
) -> Result<bool, WrongCode>
    requires stands { Stands code.now world.old.post }
    requires comes { IsHomeward code.now world.old.post one }
    ensures leaves { OnOk result (Leaves code.now one.number world.old.post world.new.post) }
    ensures written { OnOk result (WritesOn code.now world.old.post world.new.post (sink_of K.contents K.faults world.old.sink) (sink_of K.contents K.faults world.new.sink)) }
    ensures limits { OnOk result (world.new.post.limits ≡ world.old.post.limits) }
    ensures follows { IfOk result (λ whole. FollowsNext code.now whole one world.old.post world.new.post) }
{
    let Lent {
        number,
        proc,
        came,
        is_whole,
    } = one;
    match world.check_in(code, number, number, proc, came) {
        Ok(applied) => {
            match right(number, applied) {
                Err(why) => Err(why),
                Ok(()) => Ok(is_whole),
            }
        }
        Err(CheckFault { proc, came: _ }) => {
            match come_idle(code, world, number, proc, Came::GivesUp) {
                Err(why) => Err(why),
                Ok(()) => Ok(false),
            }
        }
    }
}

/// Brings a process home whose action is never made.
fn give_up<K: Sink + Drop>(code: &Code, world: &mut World<K>, one: Lent) -> Result<(), WrongCode>
    requires stands { Stands code.now world.old.post }
    requires comes { IsHomeward code.now world.old.post one }
    ensures leaves { OnOk result (Leaves code.now one.number world.old.post world.new.post) }
    ensures written { OnOk result (WritesOn code.now world.old.post world.new.post (sink_of K.contents K.faults world.old.sink) (sink_of K.contents K.faults world.new.sink)) }
    ensures limits { OnOk result (world.new.post.limits ≡ world.old.post.limits) }
    ensures journal { OnOk result (world.new.post.journal.entries ≡ world.old.post.journal.entries) }
{
    let Lent {
        number,
        proc,
        came,
        is_whole: _,
    } = one;
    come_idle(code, world, number, proc, idle(came))
}

/// Brings processes home whose actions are never made, the last of them first.
fn give_all_up<K: Sink + Drop>(
    code: &Code,
    world: &mut World<K>,
    mut lent: Vec<Lent>,
) -> Result<(), WrongCode>
    requires stands { Stands code.now world.old.post }
    requires comes { AreHomeward code.now world.old.post (reverse lent.items) }
    ensures stands { OnOk result (Stands code.now world.new.post) }
    ensures written { OnOk result (WritesOn code.now world.old.post world.new.post (sink_of K.contents K.faults world.old.sink) (sink_of K.contents K.faults world.new.sink)) }
    ensures limits { OnOk result (world.new.post.limits ≡ world.old.post.limits) }
    ensures journal { OnOk result (world.new.post.journal.entries ≡ world.old.post.journal.entries) }
{
    while let Some(one) = lent.pop() {
        match give_up(code, world, one) {
            Err(why) => return Err(why),
            Ok(()) => {}
        }
    }
    Ok(())
}

/// Brings processes home, the last of them first. `false` where there was no memory for what one of them came to: what
/// those behind it came to is never done. At a process whose code is wrong it ends, and those behind it aren't home.
fn bring_all_home<K: Sink + Drop>(
    code: &Code,
    world: &mut World<K>,
    mut lent: Vec<Lent>,
) -> Result<bool, WrongCode>
    requires stands { Stands code.now world.old.post }
    requires comes { AreHomeward code.now world.old.post (reverse lent.items) }
    ensures stands { OnOk result (Stands code.now world.new.post) }
    ensures written { OnOk result (WritesOn code.now world.old.post world.new.post (sink_of K.contents K.faults world.old.sink) (sink_of K.contents K.faults world.new.sink)) }
    ensures limits { OnOk result (world.new.post.limits ≡ world.old.post.limits) }
    ensures follows { IfOk result (λ whole. FollowsAll code.now whole (reverse lent.items) world.old.post world.new.post) }
{
    while let Some(one) = lent.pop() {
        match bring_home(code, world, one) {
            Err(why) => return Err(why),
            Ok(true) => {}
            Ok(false) => {
                match give_all_up(code, world, lent) {
                    Err(why) => return Err(why),
                    Ok(()) => return Ok(false),
                }
            }
        }
    }
    Ok(true)
}

/// Makes a round. `false` without memory: all processes are home, and of those whose actions there was none for, and of those
/// behind the first of these, none is ever made. At a process whose code is wrong the round ends, and those behind it
/// aren't home.
pub(crate) fn make_round<R: Threads + Sync, K: Sink + Drop>(
    rt: &R,
    alloc: Global,
    code: &Code,
    world: &mut World<K>,
    workers: usize,
) -> Result<bool, WrongCode>
    requires workers { 0 < workers }
    requires stands { Stands code.now world.old.post }
    ensures stands { OnOk result (Stands code.now world.new.post) }
    ensures written { OnOk result (WritesOn code.now world.old.post world.new.post (sink_of K.contents K.faults world.old.sink) (sink_of K.contents K.faults world.new.sink)) }
    ensures limits { OnOk result (world.new.post.limits ≡ world.old.post.limits) }
    ensures follows { IfOk result (λ whole. FollowsRound code.now whole world.old.post world.new.post) }
{
    let limits = *world.limits();
    let mut lent = Vec::new(alloc);
    let are_lent = lend_all(world, &mut lent);
    slice_all(rt, alloc, code, &limits, &mut lent, workers);
    turn_round(&mut lent);
    match bring_all_home(code, world, lent) {
        Err(why) => Err(why),
        Ok(is_whole) => Ok(is_whole && are_lent),
    }
}
