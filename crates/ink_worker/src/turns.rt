//! A turn.
ghost use Rattle.std.specs.Prelude.{◌≡◌, ◌≢◌, ℕ, List, [], true, Some};
ghost use Rattle.ink_lease.specs.Rule.{view, IsIdle, IsSameSeat};
ghost use Rattle.ink_worker.specs.Hands.{Carries};
ghost use Rattle.ink_worker.specs.Turns.{Stays};
ghost use Rattle.ink_worker.specs.declared.tending.After.TheVariants as after;

use crate::held::{Held, Plan};
use crate::tending::{After, tend};
use ink_lease::{Pass, Shared};
use ink_leasing::Workable;
use std::sync::Wait;

/// Waits for the turn, and does at one turn all that is to do: what is in hand comes home, and other processes are taken out.
pub(crate) fn take_turn<S: Workable, R: Wait>(
    rt: &R,
    shared: &Shared<S>,
    code: &S::Code,
    pass: Pass<S>,
    hand: &mut Vec<Held<S::Work>>,
    plan: &mut Plan,
) -> (Pass<S>, After)
    requires own { pass.seat.table_id ≡ shared.now.table.shared.table_id }
    requires idle { IsIdle pass.seat }
    requires hand { (f : S.Fixed) × (limits : List ℕ) × ((view pass.seat).fixed ≡ Some f) × S.fits f code.now limits × Carries (view pass.seat).lease (S.is_run f (view pass.seat).seen) hand.old.items }
    ensures same { IsSameSeat pass.seat result.0.seat × IsIdle result.0.seat }
    ensures stays { Stays (view pass.seat) (view result.0.seat) }
    ensures hand { (f : S.Fixed) (limits : List ℕ) → (view pass.seat).fixed ≡ Some f → S.fits f code.now limits → Carries (view pass.seat).lease (S.is_run f (view pass.seat).seen) hand.old.items → Carries (view result.0.seat).lease (S.is_run f (view result.0.seat).seen) hand.new.items }
    ensures rest { result.1 ≡ after.Rest → (view result.0.seat).rest ≡ true }
    ensures empty { result.1 ≢ after.GoesOn → (view result.0.seat).lease ≡ [] }
{
    let seat = pass.first();
    let (mut state, pass) = shared.turn(rt, pass);
    let after = tend(&mut state, code, seat, hand, plan);
    (shared.give(pass, state), after)
}
