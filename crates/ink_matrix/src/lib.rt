//! Which values rows of patterns leave: a matrix of rows over columns with types, and the least row of patterns that is
//! missing.
//!
//! A pattern and a type are known by their numbers, in tables that the caller makes: a pattern as its alternatives, a type
//! as its cases. What they are called, and how they are written, is not known here. All work is done by loops, so that
//! neither high nor wide patterns can run out of stack.
#![tactic(auto)]

mod pattern;
mod rows;
mod search;

pub use pattern::{Arm, Choice, Kind, Part, Pattern, Shape};
pub use search::missing;
