//! The phase Unique: what keeps unique values unique.
//!
//! What a `uni` holds is reached by nothing outside of it, so that it may go to another process. So a `recover` hides what
//! stands outside of it, a call that crosses into a unique value takes and gives only what may be sent, and no borrow of a
//! unique value or of its parts is kept. Each rule is broken at a byte, and what is told is the least of all that are
//! broken. Types, and what each node calls, are taken as they were found: how they are found is not known here.
#![tactic(auto)]

mod calls;
mod paths;
mod patterns;
mod results;
mod room;
mod usage;
mod walk;
mod whole;
mod written;

pub use whole::unique;
