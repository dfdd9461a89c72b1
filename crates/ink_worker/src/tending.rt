//! What a worker does to a state while it has the turn.
ghost use Rattle.std.specs.Prelude.{◌≡◌, ◌≢◌, ℕ, List, [], true};
ghost use Rattle.ink_leasing.specs.Leases.{Has, Loses, OneMore};
ghost use Rattle.ink_worker.specs.Hands.{Carries, GoesOn};
ghost use Rattle.ink_worker.specs.declared.tending.After.TheVariants as after;

use crate::held::{Held, Plan};
use ink_leasing::{Home, Workable};

/// How a worker goes on after a turn.
#[derive(Clone, Copy)]
pub(crate) enum After {
    /// The state is at rest.
    Rest,
    /// There was no memory for the event of a process.
    NoMemory,
    /// With the processes that it took, if any was ready.
    GoesOn,
}

/// A process comes home.
fn home_one<S: Workable>(state: &mut S, code: &S::Code, seat: u32, held: Held<S::Work>) -> Home
    requires leased { Has held.process (S.lease state.old seat) }
    requires run { (f : S.Fixed) × (limits : List ℕ) × S.stands_for state.old f × S.fits f code.now limits × S.is_run f (S.journal state.old) held.process held.work }
    ensures journal { OneMore held.process (S.journal state.old) (S.journal state.new) }
    ensures stands { (f : S.Fixed) (limits : List ℕ) → S.stands_for state.old f → S.fits f code.now limits → S.is_run f (S.journal state.old) held.process held.work → S.stands_for state.new f }
    ensures others { (k : ℕ) → k ≢ seat → S.lease state.new k ≡ S.lease state.old k }
    ensures lease { Loses held.process (S.lease state.old seat) (S.lease state.new seat) }
{
    let Held { process, work } = held;
    state.check_in(code, process, seat, work)
}

/// All processes in hand come home. `false` where there was no memory for the event of one of them.
fn come_home<S: Workable>(
    state: &mut S,
    code: &S::Code,
    seat: u32,
    hand: &mut Vec<Held<S::Work>>,
    plan: &mut Plan,
) -> bool
    requires hand { (f : S.Fixed) × (limits : List ℕ) × S.stands_for state.old f × S.fits f code.now limits × Carries (S.lease state.old seat) (S.is_run f (S.journal state.old)) hand.old.items }
    ensures empty { hand.new.items ≡ [] }
    ensures leases { S.lease state.new seat ≡ [] }
    ensures others { (k : ℕ) → k ≢ seat → S.lease state.new k ≡ S.lease state.old k }
    ensures journal { GoesOn (S.lease state.old seat) (S.journal state.old) (S.journal state.new) }
    ensures stands { (f : S.Fixed) (limits : List ℕ) → S.stands_for state.old f → S.fits f code.now limits → Carries (S.lease state.old seat) (S.is_run f (S.journal state.old)) hand.old.items → S.stands_for state.new f }
{
    let mut is_whole = true;
    while let Some(held) = hand.pop() {
        let process = held.process;
        match home_one(state, code, seat, held) {
            Home::Ready => {
                let _ = plan.ready.push(process);
            }
            Home::Away => {}
            Home::NoMemory => is_whole = false,
        }
    }
    is_whole
}

/// Takes a process out, if it is ready and there is room in the hand.
fn take_one<S: Workable>(
    state: &mut S,
    process: u32,
    seat: u32,
    hand: &mut Vec<Held<S::Work>>,
) -> bool
    ensures others { (k : ℕ) → k ≢ seat → S.lease state.new k ≡ S.lease state.old k }
    ensures journal { S.journal state.new ≡ S.journal state.old }
    ensures stands { (f : S.Fixed) → S.stands_for state.old f → S.stands_for state.new f }
    ensures hand { (f : S.Fixed) → S.stands_for state.old f → Carries (S.lease state.old seat) (S.is_run f (S.journal state.old)) hand.old.items → Carries (S.lease state.new seat) (S.is_run f (S.journal state.new)) hand.new.items }
{
    if hand.len() >= hand.capacity() {
        return false;
    }
    match state.check_out(process, seat) {
        Some(work) => {
            hand.push_reserved(Held { process, work });
            true
        }
        None => false,
    }
}

/// Takes the processes out that it wished for, as far as they are ready.
fn take_wishes<S: Workable>(
    state: &mut S,
    seat: u32,
    hand: &mut Vec<Held<S::Work>>,
    plan: &mut Plan,
)
    ensures others { (k : ℕ) → k ≢ seat → S.lease state.new k ≡ S.lease state.old k }
    ensures journal { S.journal state.new ≡ S.journal state.old }
    ensures stands { (f : S.Fixed) → S.stands_for state.old f → S.stands_for state.new f }
    ensures hand { (f : S.Fixed) → S.stands_for state.old f → Carries (S.lease state.old seat) (S.is_run f (S.journal state.old)) hand.old.items → Carries (S.lease state.new seat) (S.is_run f (S.journal state.new)) hand.new.items }
{
    while let Some(process) = plan.wishes.pop() {
        let _ = take_one(state, process, seat, hand);
    }
}

/// Takes processes out that are ready, until it has as many as it takes at most.
fn take_ready<S: Workable>(state: &mut S, seat: u32, hand: &mut Vec<Held<S::Work>>, most: usize)
    ensures others { (k : ℕ) → k ≢ seat → S.lease state.new k ≡ S.lease state.old k }
    ensures journal { S.journal state.new ≡ S.journal state.old }
    ensures stands { (f : S.Fixed) → S.stands_for state.old f → S.stands_for state.new f }
    ensures hand { (f : S.Fixed) → S.stands_for state.old f → Carries (S.lease state.old seat) (S.is_run f (S.journal state.old)) hand.old.items → Carries (S.lease state.new seat) (S.is_run f (S.journal state.new)) hand.new.items }
{
    for _ in hand.len()..most {
        let Some(process) = state.first_ready() else {
            return;
        };
        if !take_one(state, process, seat, hand) {
            return;
        }
    }
}

/// Brings all processes in hand home, and takes others out.
pub(crate) fn tend<S: Workable>(
    state: &mut S,
    code: &S::Code,
    seat: u32,
    hand: &mut Vec<Held<S::Work>>,
    plan: &mut Plan,
) -> After
    requires hand { (f : S.Fixed) × (limits : List ℕ) × S.stands_for state.old f × S.fits f code.now limits × Carries (S.lease state.old seat) (S.is_run f (S.journal state.old)) hand.old.items }
    ensures others { (k : ℕ) → k ≢ seat → S.lease state.new k ≡ S.lease state.old k }
    ensures journal { GoesOn (S.lease state.old seat) (S.journal state.old) (S.journal state.new) }
    ensures stands { (f : S.Fixed) (limits : List ℕ) → S.stands_for state.old f → S.fits f code.now limits → Carries (S.lease state.old seat) (S.is_run f (S.journal state.old)) hand.old.items → S.stands_for state.new f }
    ensures hand { (f : S.Fixed) (limits : List ℕ) → S.stands_for state.old f → S.fits f code.now limits → Carries (S.lease state.old seat) (S.is_run f (S.journal state.old)) hand.old.items → Carries (S.lease state.new seat) (S.is_run f (S.journal state.new)) hand.new.items }
    ensures rest { result ≡ after.Rest → S.at_rest state.new ≡ true }
    ensures empty { result ≢ after.GoesOn → S.lease state.new seat ≡ [] }
{
    if !come_home(state, code, seat, hand, plan) {
        return After::NoMemory;
    }
    if state.is_at_rest() {
        return After::Rest;
    }
    take_wishes(state, seat, hand, plan);
    take_ready(state, seat, hand, plan.most);
    plan.adapt(state.first_ready().is_some());
    After::GoesOn
}
