//! How each process of a world stands, which is the first that is ready, and who is woken.
//!
//! Why a process stands so is not known here.
#![tactic(auto)]

mod statuses;
mod waiters;

pub use statuses::Statuses;
