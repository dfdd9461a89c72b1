//! A leased world as workers see it.
ghost use Rattle.std.specs.Prelude.{◌≡◌, ◌≢◌, ◌||◌, not, ℕ, List, Bool, MatchOption, IfSome};
ghost use Rattle.ink_code.specs.declared.code.Code.{Code as OneCode};
ghost use Rattle.ink_leased.specs.Leased.{Fits, IsLeased, IsRun};
ghost use Rattle.ink_leased.specs.Lending.{lease_of};
ghost use Rattle.ink_leased.specs.Standing.{StandsFor, is_up};
ghost use Rattle.ink_leasing.specs.Leases.{Gains};
ghost use Rattle.ink_post.specs.Asks.{ComesOn};
ghost use Rattle.ink_post.specs.Worlds.{Stands};
ghost use Rattle.ink_post.specs.declared.post.Post.{Post as OnePost};
ghost use Rattle.ink_proc.specs.State.{state_of};
ghost use Rattle.ink_run.specs.Sinks.{SinkState, sink_of};

use crate::away::Away;
use crate::home::{Back, bring_home};
use crate::leased::{Began, Leased};
use ink_base::Limits;
use ink_code::Code;
use ink_devices::Sink;
use ink_leasing::{Home, Leasable, Workable};
use ink_run::World;
use std::alloc::Global;

/// Lends a process of a world to a seat, if it is ready.
fn lend<K: Sink + Drop>(world: &mut World<K>, process: u32, seat: u32) -> Option<Away>
    ensures journal { world.new.post.journal.entries ≡ world.old.post.journal.entries }
    ensures limits { world.new.post.limits ≡ world.old.post.limits }
    ensures stands { (code : OneCode) (began : OnePost) (first : SinkState) (is_over : Bool) → StandsFor code began first world.old.post (sink_of K.contents K.faults world.old.sink) is_over → StandsFor code began first world.new.post (sink_of K.contents K.faults world.new.sink) is_over }
    ensures others { (k : ℕ) → k ≢ seat → lease_of world.new.post.statuses.items k ≡ lease_of world.old.post.statuses.items k }
    ensures lends { MatchOption result (lease_of world.new.post.statuses.items seat ≡ lease_of world.old.post.statuses.items seat) (λ away. Gains process (lease_of world.old.post.statuses.items seat) (lease_of world.new.post.statuses.items seat)) }
    ensures run { (code : OneCode) → Stands code world.old.post → IfSome result (λ away. ComesOn code world.new.post.limits world.new.post.journal.entries process away.came (state_of away.proc)) }
{
    match world.check_out(process, seat) {
        Ok(proc) => Some(Away::of(proc)),
        Err(_) => None,
    }
}

impl<K: Sink + Drop> Leasable for Leased<K> {
    ghost use Rattle.ink_leased.specs.Apart.{leases_apart};

    type Fixed = Began<K>;

    ghost lease = { λ leased. lease_of leased.world.post.statuses.items };

    ghost journal = { λ leased. leased.world.post.journal.entries };

    ghost at_rest = { λ leased. leased.is_over || not (is_up leased.world.post.statuses.items) };

    ghost fixed = { λ leased. leased.began };

    ghost stands_for = { λ leased began. IsLeased (sink_of K.contents K.faults) leased began };

    ghost apart = { λ leased began stands. leases_apart leased.world.post.statuses.items };
}

impl<K: Sink + Drop> Workable for Leased<K> {
    ghost use Rattle.ink_leased.specs.Staying.{away_stays};

    type Work = Away;

    type Code = Code;

    ghost is_run = { λ began journal process away. IsRun began journal process away };

    ghost fits = { λ began code limits. Fits began code limits };

    fn is_at_rest(&self) -> bool {
        self.is_over || !(self.world.first_ready().is_some() || self.world.any_out())
    }

    fn first_ready(&self) -> Option<u32> {
        self.world.first_ready()
    }

    fn check_out(&mut self, process: u32, seat: u32) -> Option<Away> {
        if self.is_over {
            return None;
        }
        lend(&mut self.world, process, seat)
    }

    fn run(alloc: Global, code: &Code, limits: &Limits, work: &mut Away) {
        work.make_slice(alloc, code, limits);
    }

    fn check_in(&mut self, code: &Code, process: u32, seat: u32, work: Away) -> Home {
        if self.is_over {
            self.world.abandon(process);
            return Home::Away;
        }
        let Back { home, is_over } = bring_home(&mut self.world, code, process, seat, work);
        self.is_over = is_over;
        home
    }

    ghost stays = { λ began leased seen more process away stands longer without comes. away_stays (sink_of K.contents K.faults) began leased seen more process away stands longer without comes };
}
