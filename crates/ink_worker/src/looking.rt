//! The numbers of the decks.
ghost use Rattle.crossbeam_queue.specs.SegTies.{IsSegPassOf};

use crate::held::Plan;
use ink_deck::{Deck, DeckSeat};
use std::sync::Wait;
use std::thread;

/// A number of the decks: the own one first, then those of the others.
fn find<R: Wait>(rt: &R, deck: &Deck, seat: &mut DeckSeat) -> Option<u32>
    requires { IsSegPassOf deck.now.common seat.old.own.entry }
    ensures { IsSegPassOf deck.now.common seat.new.own.entry }
{
    match deck.pop(rt, seat) {
        Some(process) => Some(process),
        None => steal(rt, deck, seat),
    }
}

/// A number of the decks of the others.
fn steal<R: Wait>(rt: &R, deck: &Deck, seat: &mut DeckSeat) -> Option<u32>
    requires { IsSegPassOf deck.now.common seat.old.own.entry }
    ensures { IsSegPassOf deck.now.common seat.new.own.entry }
{
    for from in 0..seat.far.len() {
        if let Some(process) = deck.steal(rt, seat, from) {
            return Some(process);
        }
    }
    None
}

/// Wishes for as many processes as the worker takes at most, as far as the decks have them.
pub(crate) fn wish<R: Wait>(rt: &R, deck: &Deck, seat: &mut DeckSeat, plan: &mut Plan)
    requires { IsSegPassOf deck.now.common seat.old.own.entry }
    ensures { IsSegPassOf deck.now.common seat.new.own.entry }
{
    for _ in 0..plan.most {
        let Some(process) = find(rt, deck, seat) else {
            return;
        };
        let _ = plan.wishes.push(process);
    }
}

/// Looks at the decks so often before the turn is asked for again, so that a worker with nothing to do leaves the turn to the
/// others.
pub(crate) fn await_one<R: Wait>(
    rt: &R,
    deck: &Deck,
    seat: &mut DeckSeat,
    plan: &mut Plan,
    looks: u32,
)
    requires { IsSegPassOf deck.now.common seat.old.own.entry }
    ensures { IsSegPassOf deck.now.common seat.new.own.entry }
{
    for _ in 0..looks {
        thread::yield_now();
        if let Some(process) = find(rt, deck, seat) {
            let _ = plan.wishes.push(process);
            return;
        }
    }
}

/// Tells the others of the processes that came home and that the worker left.
pub(crate) fn tell<R: Wait>(rt: &R, deck: &Deck, seat: &mut DeckSeat, plan: &mut Plan)
    requires { IsSegPassOf deck.now.common seat.old.own.entry }
    ensures { IsSegPassOf deck.now.common seat.new.own.entry }
{
    while let Some(process) = plan.ready.pop() {
        let _ = deck.push(rt, seat, process);
    }
}
