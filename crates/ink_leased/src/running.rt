//! A run by workers.
ghost use Rattle.std.specs.Prelude.{◌≡◌, ◌⊎◌, ℕ, None, IfSome, [], false, true};
ghost use Rattle.std.specs.List.{list_any};
ghost use Rattle.ink_leased.specs.Leased.{Fits, IsLeased};
ghost use Rattle.ink_leased.specs.Lending.{lease_of};
ghost use Rattle.ink_leased.specs.Standing.{WentOut, rests};
ghost use Rattle.ink_post.specs.Meaning.{Ends};
ghost use Rattle.ink_post.specs.Worlds.{Stands};
ghost use Rattle.ink_post.specs.declared.answer.End.TheVariants as end;
ghost use Rattle.ink_run.specs.Sinks.{SinkState, sink_of};
ghost use Rattle.ink_run.specs.Written.{IsWritten, KeepsWritten};
ghost use Rattle.ink_statuses.specs.Readings.{is_out};

use crate::leased::{Began, Leased};
use ink_code::Code;
use ink_devices::{Gate, Sink};
use ink_run::World;
use ink_worker::run_shared;
use std::alloc::Global;
use std::snapshot::Snapshot;
use std::sync::Wait;
use std::thread::Threads;

/// A world of which no process is leased yet.
fn lease_out<K: Sink + Drop>(code: &Code, world: World<K>) -> Leased<K>
    requires stands { Stands code.now world.post }
    requires goes { world.post.halt ≡ None }
    requires right { world.post.wrong ≡ None }
    requires home { list_any is_out world.post.statuses.items ≡ false }
    ensures began { (result.began.code.value ≡ code.now) × (result.began.world.value ≡ world) }
    ensures stands { IsLeased (sink_of K.contents K.faults) result result.began }
    ensures leases { (k : ℕ) → lease_of result.world.post.statuses.items k ≡ [] }
{
    let began = Began {
        code: Snapshot::of(code),
        world: Snapshot::of(&world),
    };
    Leased {
        world,
        is_over: false,
        began,
    }
}

/// Runs a code by so many workers, at least one, up to its end. `true` beside the world where there was no memory: then the
/// run may have stopped before.
///
/// Each worker takes processes that are ready, lets them make a slice, and brings them home at its next turn. After the
/// check-in that ends the run, or that finds the code of a process wrong, the processes that come home are dropped.
pub fn run_workers<R: Threads + Wait + Sync, K: Sink + Drop + Send, G: Gate + Sync>(
    rt: &R,
    alloc: Global,
    code: &Code,
    world: World<K>,
    workers: u32,
    gate: &G,
) -> (World<K>, bool)
    requires stands { Stands code.now world.post }
    requires goes { world.post.halt ≡ None }
    requires right { world.post.wrong ≡ None }
    requires home { list_any is_out world.post.statuses.items ≡ false }
    ensures limits { result.0.post.limits ≡ world.post.limits }
    ensures stands { result.0.post.wrong ≡ None → Stands code.now result.0.post }
    ensures written { result.0.post.wrong ≡ None → KeepsWritten code.now world.post result.0.post (sink_of K.contents K.faults world.sink) (sink_of K.contents K.faults result.0.sink) }
    ensures went { (first : SinkState) → IsWritten code.now world.post first (sink_of K.contents K.faults world.sink) → WentOut code.now result.0.post first (sink_of K.contents K.faults result.0.sink) }
    ensures wrong { IfSome result.0.post.wrong (λ process. Ends code.now result.0.post.limits result.0.post.journal.entries (end.Wrong process)) }
    ensures ended { (result.0.post.halt ≡ None) ⊎ (result.0.post.wrong ≡ None) }
    ensures home { list_any is_out result.0.post.statuses.items ≡ false }
    ensures rests { result.1 ≡ false → rests result.0.post ≡ true }
{
    let limits = *world.limits();
    let leased = lease_out(code, world);
    let (leased, memory) = run_shared(rt, alloc, leased, workers.max(1), code, &limits, gate);
    let Leased {
        world,
        is_over: _,
        began: _,
    } = leased;
    (world, memory)
}
