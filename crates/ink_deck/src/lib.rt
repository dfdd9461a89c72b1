//! Numbers that workers hand to one another: a deque for each, and one queue for all.
//!
//! A seat puts numbers into its own deque, and into the queue where that can't grow. It takes from both, and from the
//! deques of the others. No number is lost and none comes twice. What the numbers name, and who waits for one, is not
//! known here: a deck that tells none at all keeps its contract.
#![tactic(auto)]

mod deck;
mod hand;
mod moves;
mod sides;

pub use deck::Deck;
pub use hand::{Fair, Hand, Puts, Takes};
pub use sides::{Common, DeckSeat, FarSide, Own, OwnSide, Thief};
