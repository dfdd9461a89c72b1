//! The futures of a run, by number, each open, set with a value, broken or taken.
//!
//! Who sets a future and who waits for it is not known here.
#![tactic(auto)]

mod answer;
mod futures;

pub use answer::{FuturesFault, Got, NotYet};
pub use futures::Futures;
