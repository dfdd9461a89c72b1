//! A run in rounds: all processes that are ready are lent, each makes a slice, and then they come home by number.
//!
//! The slices of a round are made side by side; what they come to is done by one thread, so that the run doesn't depend on
//! how many there are. What an action does is not known here.
#![tactic(auto)]

mod lent;
mod round;
mod running;

pub use ink_run::{End, World};
pub use running::{Ran, RoundFault, Stop, run_rounds};
