//! The top call: from the words of a command to its status.
//!
//! `inko_main` reads the words, does what they ask for, tells why it ended, and writes the file of the journal. Its contract
//! is the headline of the whole program; the real devices come from the program above.
#![tactic(auto)]

mod call;
mod record;

pub use call::{Ended, inko_main, inko_still};
pub use ink_causes::Cause;
