//! A set of numbers, of which the least is found in a few steps however many there are.
//!
//! What the numbers name is not known here.
#![tactic(auto)]

mod marks;
mod words;

pub use marks::Marks;
