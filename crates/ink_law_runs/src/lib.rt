//! The laws of turns, of the machine that runs a code: what is ahead of a journal, that there is one such replay, and in
//! which order messages are handled.
//!
//! Only the machine's definitions are spoken of. How a run is kept is not known here.
#![tactic(auto)]

mod laws;

pub use laws::{
    ahead_by_process, machine_is_counted, messages_are_handled_in_order, replays_are_determined,
};
