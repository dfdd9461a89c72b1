//! Workers: threads that take processes out of one state by turns, run them outside the turn and bring them home.
//!
//! Any state will do whose processes can be leased. What a process is, what it runs and what its events mean is not known
//! here; nor is how the turn or the decks are made.
#![tactic(auto)]

mod crews;
mod held;
mod looking;
mod runs;
mod slices;
mod tending;
mod turns;
mod working;

pub use crews::crew;
pub use runs::run_shared;
pub use working::{Worked, work};
