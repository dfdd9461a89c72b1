//! The phase Expressions: the type of each node of the bodies of a module, and what each call stands for.
//!
//! Expected types go down, found types come up, and each rule that is broken is told on the way, so that nothing ends
//! early. What a form's rule is, is not known here, but in which order its parts are walked and what is expected of each.
#![tactic(auto)]

mod bodies;
mod methods;
mod walk;

pub use bodies::{TypedBodies, type_bodies};
