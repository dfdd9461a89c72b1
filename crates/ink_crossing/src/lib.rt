//! What reaches into a unique value: field paths that hang in one, variables that a `recover` hides, and calls that cross.
//!
//! A call with a receiver that is unique, hidden or hanging is judged as if its method ran in a process of its own, and a
//! fresh result of it is unique too. Types are taken as they were found, and what is allowed of such paths and calls is
//! not known here.
#![tactic(auto)]

mod paths;
mod sight;

pub use paths::{base_of, hangs, is_crossing, is_declared_before, is_hidden};
pub use sight::Sight;
