//! Why a call of the program ended: the causes, the exit status of each, and how a cause is told.
//!
//! A cause is told on a sink for errors, in one line or by the report of a panic. What the call did is not known here.
#![tactic(auto)]

mod cause;
mod telling;

pub use cause::Cause;
pub use telling::{tell, try_line};
