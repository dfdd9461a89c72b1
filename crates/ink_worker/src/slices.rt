//! The slices of the processes in hand.
ghost use Rattle.std.specs.Prelude.{◌≡◌, ℕ, List};
ghost use Rattle.ink_leasing.specs.Leases.{Lease};
ghost use Rattle.ink_worker.specs.Hands.{Carries};

use crate::held::Held;
use ink_base::Limits;
use ink_devices::Gate;
use ink_leasing::Workable;
use std::alloc::Global;

/// Runs a process for a slice, behind the gate.
fn run_one<S: Workable, G: Gate>(
    alloc: Global,
    code: &S::Code,
    limits: &Limits,
    worker: u32,
    held: &mut Held<S::Work>,
    gate: &G,
)
    ensures process { held.new.process ≡ held.old.process }
    ensures run { (f : S.Fixed) (journal : List ℕ) (process : ℕ) → S.fits f code.now limits.now → S.is_run f journal process held.old.work → S.is_run f journal process held.new.work }
{
    gate.enter(worker, held.process);
    S::run(alloc, code, limits, &mut held.work);
}

/// Runs each process in hand for a slice, outside the turn.
pub(crate) fn run_all<S: Workable, G: Gate>(
    alloc: Global,
    code: &S::Code,
    limits: &Limits,
    worker: u32,
    hand: &mut Vec<Held<S::Work>>,
    gate: &G,
)
    ensures { (f : S.Fixed) (lease : Lease) (journal : List ℕ) → S.fits f code.now limits.now → Carries lease (S.is_run f journal) hand.old.items → Carries lease (S.is_run f journal) hand.new.items }
{
    for index in 0..hand.len() {
        run_one::<S, G>(alloc, code, limits, worker, &mut hand[index], gate);
    }
}
