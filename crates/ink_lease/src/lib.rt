//! A state that threads share by turns, under passes whose seats lease processes of it.
//!
//! A pass has a range of seat numbers, and what it knows: the processes that its first number leases, the journal that
//! it saw last, and whether the state that it gave last was at rest. Who takes the turn learns that the state still has
//! these leases, and that no entry of the journal since then is of one of them. Who gives it back owes a state that
//! stands, in which others lease what they leased. What a state is, is not known here.
#![tactic(auto)]

mod rule;
mod shared;
mod view;

pub use rule::{Cut, Give, Glue, Leases, Opening, Win};
pub use shared::{Numbered, Pass, Shared, Turned};
pub use view::View;
