//! The laws of a replay: what a process of a run comes to next, by how it stands in a world that is ahead of its journal.
//!
//! What a process is, and how a world is kept, is not known here.
#![tactic(auto)]

mod laws;

pub use laws::{
    ends_tell_next, next_stands, statuses_tell_next, waiting_makes_no_turn, wrong_stands,
};
