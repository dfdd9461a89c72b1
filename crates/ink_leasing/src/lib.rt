//! What a state has to tell and to do, so that seats can take processes out of it, run them and give them back.
//!
//! `Leasable` is what a turn wants to know of a state: who leases what, and which journal it has. `Workable` is what a
//! worker asks of it. Nothing here knows what a process is, how turns are taken, or how many threads there are.
#![tactic(auto)]

mod leasable;
mod workable;

pub use leasable::Leasable;
pub use workable::{Home, Workable};
