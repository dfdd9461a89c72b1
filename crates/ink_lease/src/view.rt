//! What a pass knows.
use std::collections::LinkedList;

/// What a pass knows. It stands in contracts alone: no value of it is made.
pub struct View<S, F> {
    /// Its first number, under which it leases.
    pub from: u32,
    /// Its last number. It has none where this is below the first.
    pub to: u32,
    /// How many numbers there are in all.
    pub seats: u32,
    /// The processes that it leases, with how many steps each had made.
    pub lease: LinkedList<(u32, u64)>,
    /// The fixed part of the state.
    pub fixed: Option<F>,
    /// The journal that it saw last.
    pub seen: LinkedList<u32>,
    /// How often it found the turn held.
    pub lost: u64,
    /// The state that it took, while it holds the turn.
    pub held: Option<S>,
    /// The state that it gave last was at rest.
    pub rest: bool,
}
