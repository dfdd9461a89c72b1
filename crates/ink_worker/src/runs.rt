//! A state that workers share until it is at rest.
ghost use Rattle.std.specs.Prelude.{◌≡◌, ◌≤◌, ℕ, true, false, []};
ghost use Rattle.ink_worker.specs.Hands.{Begins};

use crate::crews::crew;
use crate::working::Worked;
use ink_base::Limits;
use ink_deck::Deck;
use ink_devices::Gate;
use ink_lease::Shared;
use ink_leasing::Workable;
use std::alloc::Global;
use std::sync::Wait;
use std::thread::Threads;

/// Runs the processes of a state by so many workers, until it is at rest. `true` beside the state where it isn't, or where a
/// worker met want of memory.
pub fn run_shared<S, R: Threads + Wait + Sync, G: Gate + Sync>(
    rt: &R,
    alloc: Global,
    state: S,
    workers: u32,
    code: &S::Code,
    limits: &Limits,
    gate: &G,
) -> (S, bool)
where
    S: Workable + Send,
    S::Work: Send,
    S::Fixed: Send,
    S::Code: Sync,
    requires workers { 1 ≤ workers }
    requires no_lease { (k : ℕ) → S.lease state k ≡ [] }
    requires stands { S.stands_for state (S.fixed state) }
    requires fits { S.fits (S.fixed state) code.now limits.now }
    ensures stands { S.stands_for result.0 (S.fixed state) }
    ensures no_lease { (k : ℕ) → S.lease result.0 k ≡ [] }
    ensures journal { Begins (S.journal state) (S.journal result.0) }
    ensures rest { result.1 ≡ false → S.at_rest result.0 ≡ true }
{
    let (shared, pass) = match Shared::start(alloc, state, workers) {
        Ok(both) => both,
        Err(state) => return (state, true),
    };
    let (deck, seats) = match Deck::new(alloc, workers) {
        Ok(both) => both,
        Err(_) => return (shared.close(pass), true),
    };
    let Worked { pass, memory } = crew(rt, alloc, &shared, code, limits, pass, &deck, seats, gate);
    deck.end();
    let state = shared.close(pass);
    let is_unfinished = memory || !state.is_at_rest();
    (state, is_unfinished)
}
