//! What the grammar tells apart of a token, by its kind and its text.
//!
//! A scanner knows that a word is a keyword, and this room which one. Nothing here knows which tokens follow one another:
//! that a keyword behind a `.` is read as a name is the grammar's work.
#![tactic(auto)]

mod keyword;
mod mark;
mod terminals;

pub use terminals::{shape_of, shapes};
