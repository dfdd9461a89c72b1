//! The type arguments of calls and constructions: which of their type parameters are open, and what is found for them.
//!
//! They are found first from the type that is expected of the result, then from the arguments, left to right, each by
//! equality of types. What a signature is, where an argument stands, and which rule is broken where something stays open
//! is not known here.
#![tactic(auto)]

mod inference;
mod open_parameters;

pub use inference::{Inference, Outcome};
