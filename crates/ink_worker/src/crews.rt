//! Workers side by side, one for each number of a pass.
ghost use Rattle.std.specs.Prelude.{◌≡◌, ◌<◌, ◌+◌, true, false, [], Some, All, vec_len};
ghost use Rattle.std.specs.Thread.{IsSend, IsSync};
ghost use Rattle.crossbeam_queue.specs.SegTies.{IsSegPassOf};
ghost use Rattle.ink_lease.specs.Rule.{view, IsIdle, IsSameSeat};
ghost use Rattle.ink_worker.specs.Turns.{Stays};

use crate::working::{Worked, work};
use ink_base::Limits;
use ink_deck::{Deck, DeckSeat};
use ink_devices::Gate;
use ink_lease::{Pass, Shared};
use ink_leasing::Workable;
use std::alloc::Global;
use std::sync::Wait;
use std::thread::{Threads, join};

/// One worker, with a seat of the decks that is its own.
fn alone<S: Workable, R: Wait, G: Gate>(
    rt: &R,
    alloc: Global,
    shared: &Shared<S>,
    code: &S::Code,
    limits: &Limits,
    pass: Pass<S>,
    deck: &Deck,
    seat: DeckSeat,
    gate: &G,
) -> Worked<S>
    requires own { pass.seat.table_id ≡ shared.now.table.shared.table_id }
    requires idle { IsIdle pass.seat × ((view pass.seat).lease ≡ []) }
    requires code { (f : S.Fixed) × ((view pass.seat).fixed ≡ Some f) × S.fits f code.now limits.now }
    requires seat { IsSegPassOf deck.now.common seat.own.entry }
    ensures same { IsSameSeat pass.seat result.pass.seat × IsIdle result.pass.seat }
    ensures stays { Stays (view pass.seat) (view result.pass.seat) }
    ensures lease { (view result.pass.seat).lease ≡ [] }
    ensures rest { result.memory ≡ false → (view result.pass.seat).rest ≡ true }
{
    let mut seat = seat;
    work(rt, alloc, shared, code, limits, pass, deck, &mut seat, gate)
}

/// Each number of the pass works, all but the last in a thread, and the pass comes back whole.
pub fn crew<S, R: Threads + Wait + Sync, G: Gate + Sync>(
    rt: &R,
    alloc: Global,
    shared: &Shared<S>,
    code: &S::Code,
    limits: &Limits,
    pass: Pass<S>,
    deck: &Deck,
    seats: Vec<DeckSeat>,
    gate: &G,
) -> Worked<S>
where
    S: Workable + Send,
    S::Work: Send,
    S::Fixed: Send,
    S::Code: Sync,
    requires own { pass.seat.table_id ≡ shared.now.table.shared.table_id }
    requires idle { IsIdle pass.seat × ((view pass.seat).lease ≡ []) }
    requires code { (f : S.Fixed) × ((view pass.seat).fixed ≡ Some f) × S.fits f code.now limits.now }
    requires seats { All (λ s. IsSegPassOf deck.now.common s.own.entry) seats.items }
    requires enough { (view pass.seat).to < (view pass.seat).from + vec_len seats }
    ensures same { IsSameSeat pass.seat result.pass.seat × IsIdle result.pass.seat }
    ensures stays { Stays (view pass.seat) (view result.pass.seat) }
    ensures lease { (view result.pass.seat).lease ≡ [] }
    ensures rest { result.memory ≡ false → (view result.pass.seat).rest ≡ true }
{
    let mut seats = seats;
    let Some(seat) = seats.pop() else {
        unreachable!()
    };
    match shared.split(pass) {
        Err(pass) => alone(rt, alloc, shared, code, limits, pass, deck, seat, gate),
        Ok((first, others)) => {
            let (a, b) = join(
                rt,
                move || -> Worked<S>
                    requires { (first.seat.table_id ≡ shared.now.table.shared.table_id) × IsIdle first.seat × ((view first.seat).lease ≡ []) × ((f : S.Fixed) × ((view first.seat).fixed ≡ Some f) × S.fits f code.now limits.now) × IsSegPassOf deck.now.common seat.own.entry }
                    ensures { IsSameSeat first.seat result.pass.seat × IsIdle result.pass.seat × Stays (view first.seat) (view result.pass.seat) × ((view result.pass.seat).lease ≡ []) × (result.memory ≡ false → (view result.pass.seat).rest ≡ true) }
                { alone(rt, alloc, shared, code, limits, first, deck, seat, gate) },
                move || -> Worked<S>
                    requires { IsSync R.row × IsSend S.row × IsSend S.Work.row × IsSend S.Fixed.row × IsSync S.Code.row × IsSync G.row × (others.seat.table_id ≡ shared.now.table.shared.table_id) × IsIdle others.seat × ((view others.seat).lease ≡ []) × ((f : S.Fixed) × ((view others.seat).fixed ≡ Some f) × S.fits f code.now limits.now) × All (λ s. IsSegPassOf deck.now.common s.own.entry) seats.items × ((view others.seat).to < (view others.seat).from + vec_len seats) }
                    ensures { IsSameSeat others.seat result.pass.seat × IsIdle result.pass.seat × Stays (view others.seat) (view result.pass.seat) × ((view result.pass.seat).lease ≡ []) }
                { crew(rt, alloc, shared, code, limits, others, deck, seats, gate) },
            );
            let Worked {
                pass: one,
                memory: first_met,
            } = a;
            let Worked {
                pass: other,
                memory: other_met,
            } = b;
            Worked {
                pass: shared.join(one, other),
                memory: first_met || other_met,
            }
        }
    }
}
