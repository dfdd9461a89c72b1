//! What a seat has: its own deque, its pass of the queue, and a handle on each deque.
ghost use Rattle.std.specs.Prelude.{◌≡◌};
ghost use Rattle.crossbeam_deque.specs.Handles.{IsPassOf, worker_flavor, stealer_deque, stealer_flavor};

use crate::hand::{Fair, Hand};
use crossbeam_deque::{Pass, Stealer, Worker};
use crossbeam_queue::{RuledSegQueue, SegPass};
use std::alloc::Global;

/// A seat's own deque.
pub type Own = Worker<u32, Global, Hand, Fair>;

/// A handle on the deque of a seat.
pub type Thief = Stealer<u32, Global, Hand, Fair>;

/// The queue for all.
pub type Common = RuledSegQueue<u32, Hand, Fair>;

/// A seat's own side: its deque, and its pass of the queue.
#[derive(Drop)]
pub struct OwnSide {
    pub deque: Own,
    pub entry: SegPass<u32, Hand>,
    pub ghost fifo: { worker_flavor deque ≡ 0 },
}

/// What a seat has of a deque that others put into.
#[derive(Drop)]
pub struct FarSide {
    pub thief: Thief,
    pub pass: Pass<u32, Hand>,
    pub ghost fits: { IsPassOf (stealer_deque thief) pass },
    pub ghost fifo: { stealer_flavor thief ≡ 0 },
}

/// What one worker has: its own side, and a side of each seat's deque, in the order of the seats.
#[derive(Drop)]
pub struct DeckSeat {
    pub own: OwnSide,
    pub far: Vec<FarSide>,
}
