//! Laws of runs in which processes take turns, whatever runs a process: that a journal leads to one run, that steps and
//! actions of different processes commute, and in which order messages come.
//!
//! A process is known by a record of what it does (`specs/Machines`). What a process is, and how a run is kept, is not
//! known here.
#![tactic(auto)]

mod laws;

pub use laws::{
    actions_keep_ahead, entries_of_others_leave, messages_come_in_order, steps_keep_ahead,
    turns_are_determined,
};
