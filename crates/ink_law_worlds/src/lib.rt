//! The laws of worlds, of the machine that runs a code: what a process that comes home finds there.
//!
//! Only worlds as plain data and the machine's definitions are spoken of. How a world is kept is not known here.
#![tactic(auto)]

mod laws;

pub use laws::{replies_come_apart, starts_are_fresh, worlds_are_ahead};
