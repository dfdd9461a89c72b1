//! The types of patterns, and of the variables that they bind.
//!
//! A pattern is judged by the type of what it is matched with, from the outside in. Each rule that is broken is told, and
//! nothing ends early. Where a pattern stands, what its arm does, and whether the patterns of a `match` cover all values
//! is not known here.
#![tactic(auto)]

mod bindings;
mod constructors;
mod matched;
mod walk;

pub use walk::pattern_types;
