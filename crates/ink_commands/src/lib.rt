//! What each command comes to, before that is told: files are read, a module is judged, and it is printed, listed, run or
//! replayed.
//!
//! Nothing is told here of what came of it, and no file is written.
#![tactic(auto)]

mod command;
mod outcome;
mod reading;
mod running;
mod verdict;
mod writing;

pub use command::obey;
pub use outcome::{Found, Outcome};
