//! Rounds up to an end.
ghost use Rattle.std.specs.Prelude.{◌≡◌, IfErr, IfOk};
ghost use Rattle.ink_post.specs.Ends.{end_in};
ghost use Rattle.ink_post.specs.Worlds.{Stands};
ghost use Rattle.ink_rounds.specs.Faults.{world_in};
ghost use Rattle.ink_rounds.specs.Homes.{LeavesOn, WritesOn};
ghost use Rattle.ink_rounds.specs.Stops.{UnlessWrong, stop_in};
ghost use Rattle.ink_run.specs.Sinks.{sink_of};

use crate::round::{WrongCode, make_round};
use ink_code::Code;
use ink_devices::Sink;
use ink_run::{End, World};
use std::alloc::Global;
use std::thread::Threads;

/// Where a run in rounds stops.
#[derive(Clone, Copy)]
pub enum Stop {
    /// The run ended.
    Ended(End),
    /// So many rounds were made, which is the limit, and the run didn't end.
    RoundLimit(u64),
}

/// A run that stopped.
#[derive(Drop)]
pub struct Ran<K: Drop> {
    pub world: World<K>,
    pub stop: Stop,
}

/// Why a run in rounds came to no stop.
#[derive(Drop)]
pub enum RoundFault<K: Drop> {
    /// All processes are at home. One for whose action there was no memory never makes it, and no process behind it in that
    /// round makes its own.
    OutOfMemory(World<K>),
}

/// Whether a process is to run.
fn goes_on<K: Sink + Drop>(world: &World<K>) -> bool {
    world.end().is_none() && world.first_ready().is_some()
}

/// Where a run stops of which so many rounds were made as there may be, or that ended before.
fn stop_of<K: Sink + Drop>(world: &World<K>, budget: u64) -> Stop
    ensures { result ≡ stop_in budget (end_in world.now.post.halt world.now.post.wrong world.now.post.statuses.items) }
{
    match world.end() {
        Some(end) => Stop::Ended(end),
        None => Stop::RoundLimit(budget),
    }
}

/// Runs a code in rounds, up to its end or to the limit of rounds. At most so many threads make the slices of a round, and
/// at least one does.
///
/// A round lends the processes that are ready when it begins, each for one slice, and then checks them in by number. One
/// that becomes ready in a round is lent in the next. After the check-in that ends the run the others of that round come
/// home and do nothing. Where the code of a process is wrong, the run ends with it at once.
pub fn run_rounds<R: Threads + Sync, K: Sink + Drop>(
    rt: &R,
    alloc: Global,
    code: &Code,
    world: World<K>,
    workers: u32,
    budget: u64,
) -> Result<Ran<K>, RoundFault<K>>
    requires { Stands code.now world.post }
    ensures stands { IfOk result (λ ran. UnlessWrong ran.stop (Stands code.now ran.world.post)) }
    ensures stop { IfOk result (λ ran. UnlessWrong ran.stop (ran.stop ≡ stop_in budget (end_in ran.world.post.halt ran.world.post.wrong ran.world.post.statuses.items))) }
    ensures written { IfOk result (λ ran. UnlessWrong ran.stop (WritesOn code.now world.post ran.world.post (sink_of K.contents K.faults world.sink) (sink_of K.contents K.faults ran.world.sink))) }
    ensures limits { IfOk result (λ ran. UnlessWrong ran.stop (ran.world.post.limits ≡ world.post.limits)) }
    ensures fault { IfErr result (λ fault. LeavesOn code.now world.post (world_in fault).post (sink_of K.contents K.faults world.sink) (sink_of K.contents K.faults (world_in fault).sink)) }
{
    let threads = workers.max(1) as usize;
    let mut world = world;
    for _ in 0..budget {
        if !goes_on(&world) {
            break;
        }
        match make_round(rt, alloc, code, &mut world, threads) {
            Err(WrongCode(process)) => {
                let stop = Stop::Ended(End::Wrong(process));
                return Ok(Ran { world, stop });
            }
            Ok(false) => return Err(RoundFault::OutOfMemory(world)),
            Ok(true) => {}
        }
    }
    let stop = stop_of(&world, budget);
    Ok(Ran { world, stop })
}
