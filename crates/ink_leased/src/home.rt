//! A process that comes home to its world.
ghost use Rattle.std.specs.Prelude.{◌≡◌, None};
ghost use Rattle.ink_leased.specs.Homecoming.{ComesIn, over_by};
ghost use Rattle.ink_post.specs.Asks.{IsComing};
ghost use Rattle.ink_post.specs.Worlds.{Stands};
ghost use Rattle.ink_post.specs.declared.answer.Came.TheVariants as came;
ghost use Rattle.ink_proc.specs.State.{state_of};
ghost use Rattle.ink_run.specs.Sinks.{sink_of};

use crate::away::Away;
use ink_code::Code;
use ink_devices::Sink;
use ink_leasing::Home;
use ink_proc::Proc;
use ink_run::{Applied, Came, CheckFault, World};

/// A process came home, and whether the run goes no further.
pub(crate) struct Back {
    pub(crate) home: Home,
    pub(crate) is_over: bool,
}

/// Whether the run goes no further after a check-in.
fn is_over(applied: Applied) -> bool
    ensures { result ≡ over_by applied }
{
    match applied {
        Applied::Kept | Applied::Moved | Applied::Waits => false,
        Applied::Panicked
        | Applied::SinkFailed
        | Applied::JournalFull
        | Applied::Spent(_)
        | Applied::Wrong => true,
    }
}

/// What became of a process by what its check-in came to. Without memory for its slice it is ready, and the worker is told.
fn home_of(applied: Applied, is_whole: bool) -> Home {
    if !is_whole {
        return Home::NoMemory;
    }
    match applied {
        Applied::Kept | Applied::Moved => Home::Ready,
        _ => Home::Away,
    }
}

/// Brings a process home for whose action there is no memory: that is never made.
fn give_up<K: Sink + Drop>(
    world: &mut World<K>,
    code: &Code,
    process: u32,
    seat: u32,
    proc: Proc,
) -> Back
    requires goes { world.old.post.halt ≡ None }
    requires right { world.old.post.wrong ≡ None }
    requires stands { Stands code.now world.old.post }
    requires comes { IsComing code.now world.old.post process seat came.GivesUp (state_of proc) }
    ensures { ComesIn code.now process world.old.post world.new.post (sink_of K.contents K.faults world.old.sink) (sink_of K.contents K.faults world.new.sink) result.is_over }
{
    match world.check_in(code, process, seat, proc, Came::GivesUp) {
        Ok(applied) => Back {
            home: Home::NoMemory,
            is_over: is_over(applied),
        },
        Err(_) => unreachable!(),
    }
}

/// Brings a process home, and what it came to is done. Without memory for its action that is never made.
pub(crate) fn bring_home<K: Sink + Drop>(
    world: &mut World<K>,
    code: &Code,
    process: u32,
    seat: u32,
    away: Away,
) -> Back
    requires goes { world.old.post.halt ≡ None }
    requires right { world.old.post.wrong ≡ None }
    requires stands { Stands code.now world.old.post }
    requires comes { IsComing code.now world.old.post process seat away.came (state_of away.proc) }
    ensures { ComesIn code.now process world.old.post world.new.post (sink_of K.contents K.faults world.old.sink) (sink_of K.contents K.faults world.new.sink) result.is_over }
{
    let Away {
        proc,
        came,
        is_whole,
    } = away;
    match world.check_in(code, process, seat, proc, came) {
        Ok(applied) => Back {
            home: home_of(applied, is_whole),
            is_over: is_over(applied),
        },
        Err(CheckFault { proc, came: _ }) => give_up(world, code, process, seat, proc),
    }
}
