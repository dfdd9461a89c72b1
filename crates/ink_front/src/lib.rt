//! The phases of judging a module that stand behind its reading, one behind the other.
//!
//! A phase is judged only where those before it hold, and refuses with the least that it finds broken. A module that none
//! of them refuses is given with all that they found. What is done with it is not known here.
#![tactic(auto)]

mod phases;

pub use phases::judge;
