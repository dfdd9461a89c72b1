//! The reading of a module: from the bytes of a source to its tokens and its tree, or the first rule that it breaks.
//!
//! The rules are judged in phases, one after the other: the length of the source, its characters, its tokens, its
//! grammar, the heights of what stands in it. What a name or a type means is not known here.
#![tactic(auto)]

mod phases;
mod reading;

pub use reading::{Reading, read_module};
