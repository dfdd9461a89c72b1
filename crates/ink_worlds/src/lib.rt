//! A world of processes as plain data: which are at home, how each stands, what they share, and what the calls of a world
//! come to. Its laws show that a world whose processes are partly lent is ahead of its own journal.
//!
//! What a process is, and how a world is kept, is not known here.
#![tactic(auto)]

mod halt;
mod laws;
mod status;

pub use halt::Halt;
pub use laws::{worlds_begin, worlds_end, worlds_keep_standing, worlds_lend};
pub use status::Status;
