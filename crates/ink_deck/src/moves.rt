//! A number is put into a deque or the queue, or taken from one.
ghost use Rattle.std.specs.Prelude.{◌≡◌, MatchOption, MatchResult};
ghost use Rattle.crossbeam_deque.specs.Handles.{worker_deque, worker_view};
ghost use Rattle.crossbeam_queue.specs.SegTies.{IsSegPassOf};
ghost use Rattle.ink_deck.specs.Hands.{and_put, and_taken, PutOne, TookOne, SameHands};
ghost use Rattle.ink_deck.specs.Sides.{hands, far_hand};

use crate::hand::{Puts, Takes};
use crate::sides::{Common, FarSide, OwnSide};
use crossbeam_deque::Steal;
use std::sync::Wait;

fn push_own(side: &mut OwnSide, number: u32) -> Result<(), u32>
    ensures entry { side.new.entry ≡ side.old.entry }
    ensures deque { worker_deque side.new.deque ≡ worker_deque side.old.deque }
    ensures put { MatchResult result
        (λ _. worker_view side.new.deque ≡ and_put number (worker_view side.old.deque))
        (λ back. (back ≡ number) × (worker_view side.new.deque ≡ worker_view side.old.deque)) }
{
    side.deque.push_as::<Puts>(number)
}

fn push_common<R: Wait>(rt: &R, common: &Common, side: &mut OwnSide, number: u32) -> Result<(), u32>
    requires { IsSegPassOf common.now side.old.entry }
    ensures entry { IsSegPassOf common.now side.new.entry }
    ensures deque { side.new.deque ≡ side.old.deque }
    ensures put { MatchResult result
        (λ _. side.new.entry.me.view.client ≡ and_put number side.old.entry.me.view.client)
        (λ back. (back ≡ number) × (side.new.entry.me.view.client ≡ side.old.entry.me.view.client)) }
{
    common.push_as::<Puts, R>(rt, &mut side.entry, number)
}

/// Puts a number into the seat's own deque, or else into the queue.
pub(crate) fn push<R: Wait>(
    rt: &R,
    common: &Common,
    side: &mut OwnSide,
    number: u32,
) -> Result<(), u32>
    requires { IsSegPassOf common.now side.old.entry }
    ensures entry { IsSegPassOf common.now side.new.entry }
    ensures deque { worker_deque side.new.deque ≡ worker_deque side.old.deque }
    ensures put { MatchResult result
        (λ _. PutOne number (hands side.old) (hands side.new))
        (λ back. (back ≡ number) × SameHands (hands side.old) (hands side.new)) }
{
    match push_own(side, number) {
        Ok(()) => Ok(()),
        Err(back) => push_common(rt, common, side, back),
    }
}

fn pop_own(side: &mut OwnSide) -> Option<u32>
    ensures entry { side.new.entry ≡ side.old.entry }
    ensures deque { worker_deque side.new.deque ≡ worker_deque side.old.deque }
    ensures given { MatchOption result
        (worker_view side.new.deque ≡ worker_view side.old.deque)
        (λ number. worker_view side.new.deque ≡ and_taken number (worker_view side.old.deque)) }
{
    side.deque.pop_as::<Takes>()
}

fn pop_common<R: Wait>(rt: &R, common: &Common, side: &mut OwnSide) -> Option<u32>
    requires { IsSegPassOf common.now side.old.entry }
    ensures entry { IsSegPassOf common.now side.new.entry }
    ensures deque { side.new.deque ≡ side.old.deque }
    ensures given { MatchOption result
        (side.new.entry.me.view.client ≡ side.old.entry.me.view.client)
        (λ number. side.new.entry.me.view.client ≡ and_taken number side.old.entry.me.view.client) }
{
    common.pop_as::<Takes, R>(rt, &mut side.entry)
}

/// Asks the seat's own deque, and then the queue.
pub(crate) fn pop<R: Wait>(rt: &R, common: &Common, side: &mut OwnSide) -> Option<u32>
    requires { IsSegPassOf common.now side.old.entry }
    ensures entry { IsSegPassOf common.now side.new.entry }
    ensures deque { worker_deque side.new.deque ≡ worker_deque side.old.deque }
    ensures given { MatchOption result
        (SameHands (hands side.old) (hands side.new))
        (λ number. TookOne number (hands side.old) (hands side.new)) }
{
    match pop_own(side) {
        Some(number) => Some(number),
        None => pop_common(rt, common, side),
    }
}

/// Asks a deque that others put into, as often as another takes at the same moment.
pub(crate) fn steal<R: Wait>(rt: &R, far: &mut FarSide) -> Option<u32>
    ensures same { far.new.thief ≡ far.old.thief }
    ensures given { MatchOption result
        (far_hand far.new ≡ far_hand far.old)
        (λ number. far_hand far.new ≡ and_taken number (far_hand far.old)) }
{
    for _ in rt.forever() {
        match far.thief.steal_as::<Takes>(&mut far.pass) {
            Steal::Success(number) => return Some(number),
            Steal::Empty => return None,
            Steal::Retry => {}
        }
    }
    unreachable!()
}
