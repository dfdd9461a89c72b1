//! The laws of rounds: what a process that comes home leaves of the others that are lent.
//!
//! What a process is, and how a world is kept, is not known here.
#![tactic(auto)]

mod laws;

pub use laws::others_stay_lent;
