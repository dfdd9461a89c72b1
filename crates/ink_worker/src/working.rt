//! The loop of a worker.
ghost use Rattle.std.specs.Prelude.{◌≡◌, true, false, Some, []};
ghost use Rattle.crossbeam_queue.specs.SegTies.{IsSegPassOf};
ghost use Rattle.ink_lease.specs.Rule.{view, IsIdle, IsSameSeat};
ghost use Rattle.ink_worker.specs.Turns.{Stays};

use crate::held::{MOST, Plan};
use crate::looking::{await_one, tell, wish};
use crate::slices::run_all;
use crate::tending::After;
use crate::turns::take_turn;
use ink_base::Limits;
use ink_deck::{Deck, DeckSeat};
use ink_devices::Gate;
use ink_lease::{Pass, Shared};
use ink_leasing::{Leasable, Workable};
use std::alloc::Global;
use std::sync::Wait;

/// How a worker ended.
pub struct Worked<S: Leasable> {
    pub pass: Pass<S>,
    /// It met want of memory.
    pub memory: bool,
}

/// So often a worker with nothing to do looks at the decks at first, and at most.
const LOOKS: u32 = 64;

const MOST_LOOKS: u32 = 1_024;

/// Takes processes out, runs them and brings them home, until the state is at rest or there is no memory.
pub fn work<S: Workable, R: Wait, G: Gate>(
    rt: &R,
    alloc: Global,
    shared: &Shared<S>,
    code: &S::Code,
    limits: &Limits,
    pass: Pass<S>,
    deck: &Deck,
    seat: &mut DeckSeat,
    gate: &G,
) -> Worked<S>
    requires own { pass.seat.table_id ≡ shared.now.table.shared.table_id }
    requires idle { IsIdle pass.seat × ((view pass.seat).lease ≡ []) }
    requires code { (f : S.Fixed) × ((view pass.seat).fixed ≡ Some f) × S.fits f code.now limits.now }
    requires deck { IsSegPassOf deck.now.common seat.old.own.entry }
    ensures same { IsSameSeat pass.seat result.pass.seat × IsIdle result.pass.seat }
    ensures stays { Stays (view pass.seat) (view result.pass.seat) }
    ensures lease { (view result.pass.seat).lease ≡ [] }
    ensures rest { result.memory ≡ false → (view result.pass.seat).rest ≡ true }
    ensures deck { IsSegPassOf deck.now.common seat.new.own.entry }
{
    let Ok(mut plan) = Plan::new(alloc) else {
        return Worked { pass, memory: true };
    };
    let Ok(mut hand) = Vec::with_capacity(alloc, MOST) else {
        return Worked { pass, memory: true };
    };
    let worker = pass.first();
    let mut pass = pass;
    let mut looks = LOOKS;
    for _ in rt.forever() {
        run_all::<S, G>(alloc, code, limits, worker, &mut hand, gate);
        wish(rt, deck, seat, &mut plan);
        let after;
        (pass, after) = take_turn(rt, shared, code, pass, &mut hand, &mut plan);
        tell(rt, deck, seat, &mut plan);
        match after {
            After::Rest => return Worked {
                pass,
                memory: false,
            },
            After::NoMemory => return Worked { pass, memory: true },
            After::GoesOn => {}
        }
        if hand.is_empty() {
            await_one(rt, deck, seat, &mut plan, looks);
            looks = looks.saturating_mul(2).min(MOST_LOOKS);
        } else {
            looks = LOOKS;
        }
    }
    unreachable!()
}
