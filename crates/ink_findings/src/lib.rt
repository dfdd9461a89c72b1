//! What the phases that judge bodies find: the type of each node and what it calls, and what becomes of a variable at an
//! exit, and the type arguments of calls.
//!
//! These are tables that one phase fills and later ones read. How anything in them is found is not known here.
#![tactic(auto)]

mod arguments;
mod moves;
mod typed;

pub use arguments::TypeArguments;
pub use moves::{Fate, Moves};
pub use typed::{Found, Target, Typed};
