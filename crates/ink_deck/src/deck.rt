//! The decks of all seats.
ghost use Rattle.std.specs.Prelude.{◌≡◌, ◌≢◌, ℕ, ◌<◌, All, IfOk, MatchOption, MatchResult, vec_len, slice_index_or};
ghost use Rattle.crossbeam_deque.specs.Handles.{worker_flavor};
ghost use Rattle.crossbeam_queue.specs.SegTies.{IsSegPassOf};
ghost use Rattle.ink_deck.specs.Hands.{and_taken, PutOne, TookOne, SameHands};
ghost use Rattle.ink_deck.specs.Sides.{hands, far_hand};
ghost use Rattle.ink_deck.specs.declared.sides.FarSide.{FarSide};

use crate::moves::{pop, push, steal};
use crate::sides::{Common, DeckSeat, FarSide, Own, OwnSide};
use crossbeam_deque::Worker;
use crossbeam_queue::RuledSegQueue;
use std::alloc::{AllocError, Global};
use std::sync::Wait;

/// How many numbers a deque holds before it grows for the first time.
const FIRST_CAPACITY: usize = 64;

/// What all seats share. It is ended by `end`, since the queue has no drop.
pub struct Deck {
    pub common: Common,
}

impl Deck {
    /// The deck of so many workers, and a seat for each.
    pub fn new(alloc: Global, workers: u32) -> Result<(Deck, Vec<DeckSeat>), AllocError>
        ensures count { IfOk result (λ r. vec_len r.1 ≡ workers) }
        ensures fits { IfOk result (λ r. All (λ seat. IsSegPassOf r.0.common seat.own.entry × (vec_len seat.far ≡ workers)) r.1.items) }
    {
        let (common, _first) = RuledSegQueue::with_rule(alloc)?;
        match seats(alloc, &common, workers) {
            Ok(seats) => Ok((Deck { common }, seats)),
            Err(why) => {
                common.destroy();
                Err(why)
            }
        }
    }

    /// Puts a number into the seat's own deque, or else into the queue for all. Without memory for either it comes back.
    pub fn push<R: Wait>(&self, rt: &R, seat: &mut DeckSeat, number: u32) -> Result<(), u32>
        requires { IsSegPassOf self.now.common seat.old.own.entry }
        ensures entry { IsSegPassOf self.now.common seat.new.own.entry }
        ensures far { seat.new.far ≡ seat.old.far }
        ensures put { MatchResult result
            (λ _. PutOne number (hands seat.old.own) (hands seat.new.own))
            (λ back. (back ≡ number) × SameHands (hands seat.old.own) (hands seat.new.own)) }
    {
        push(rt, &self.common, &mut seat.own, number)
    }

    /// Asks the seat's own deque, and then the queue for all.
    pub fn pop<R: Wait>(&self, rt: &R, seat: &mut DeckSeat) -> Option<u32>
        requires { IsSegPassOf self.now.common seat.old.own.entry }
        ensures entry { IsSegPassOf self.now.common seat.new.own.entry }
        ensures far { seat.new.far ≡ seat.old.far }
        ensures given { MatchOption result
            (SameHands (hands seat.old.own) (hands seat.new.own))
            (λ number. TookOne number (hands seat.old.own) (hands seat.new.own)) }
    {
        pop(rt, &self.common, &mut seat.own)
    }

    /// Asks the deque of one seat.
    pub fn steal<R: Wait>(&self, rt: &R, seat: &mut DeckSeat, from: usize) -> Option<u32>
        requires { from < vec_len seat.old.far }
        ensures own { seat.new.own ≡ seat.old.own }
        ensures count { vec_len seat.new.far ≡ vec_len seat.old.far }
        ensures others { (i : ℕ) (d : FarSide) → i ≢ from → slice_index_or seat.new.far.items i d ≡ slice_index_or seat.old.far.items i d }
        ensures given { (d : FarSide) → MatchOption result
            (far_hand (slice_index_or seat.new.far.items from d) ≡ far_hand (slice_index_or seat.old.far.items from d))
            (λ number. far_hand (slice_index_or seat.new.far.items from d) ≡ and_taken number (far_hand (slice_index_or seat.old.far.items from d))) }
    {
        steal(rt, &mut seat.far[from])
    }

    pub fn end(self) {
        let Deck { common } = self;
        common.destroy();
    }
}

fn far_side(of: &Own) -> Result<FarSide, AllocError>
    requires { worker_flavor of.now ≡ 0 }
{
    let thief = of.stealer()?;
    let pass = thief.pass();
    Ok(FarSide { thief, pass })
}

// A side of each deque, the last one first, since seats take theirs from the end.
fn far_sides(alloc: Global, owns: &Vec<OwnSide>) -> Result<Vec<FarSide>, AllocError>
    ensures { IfOk result (λ far. vec_len far ≡ vec_len owns.now) }
{
    let mut far = Vec::new(alloc);
    for i in 0..owns.len() {
        far.push(far_side(&owns[owns.len() - 1 - i].deque)?)?;
    }
    Ok(far)
}

fn own_side(alloc: Global, common: &Common) -> Result<OwnSide, AllocError>
    ensures { IfOk result (λ side. IsSegPassOf common.now side.entry) }
{
    let deque: Own = Worker::fifo_as(alloc, FIRST_CAPACITY)?;
    Ok(OwnSide {
        deque,
        entry: common.pass(),
    })
}

fn own_sides(alloc: Global, common: &Common, workers: u32) -> Result<Vec<OwnSide>, AllocError>
    ensures { IfOk result (λ owns. (vec_len owns ≡ workers) × All (λ side. IsSegPassOf common.now side.entry) owns.items) }
{
    let mut owns = Vec::new(alloc);
    for _ in 0..workers {
        owns.push(own_side(alloc, common)?)?;
    }
    Ok(owns)
}

// The sides of each deque, once for each seat.
fn far_lists(alloc: Global, owns: &Vec<OwnSide>) -> Result<Vec<Vec<FarSide>>, AllocError>
    ensures { IfOk result (λ fars. (vec_len fars ≡ vec_len owns.now) × All (λ far. vec_len far ≡ vec_len owns.now) fars.items) }
{
    let mut fars = Vec::new(alloc);
    for _ in 0..owns.len() {
        fars.push(far_sides(alloc, owns)?)?;
    }
    Ok(fars)
}

fn seats(alloc: Global, common: &Common, workers: u32) -> Result<Vec<DeckSeat>, AllocError>
    ensures count { IfOk result (λ seats. vec_len seats ≡ workers) }
    ensures fits { IfOk result (λ seats. All (λ seat. IsSegPassOf common.now seat.own.entry × (vec_len seat.far ≡ workers)) seats.items) }
{
    let mut owns = own_sides(alloc, common, workers)?;
    let mut fars = far_lists(alloc, &owns)?;
    let mut seats = Vec::new(alloc);
    for _ in 0..workers {
        let Some(own) = owns.pop() else {
            unreachable!()
        };
        let Some(far) = fars.pop() else {
            unreachable!()
        };
        seats.push(DeckSeat { own, far })?;
    }
    Ok(seats)
}
