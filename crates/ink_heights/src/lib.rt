//! The heights of a module's expressions, patterns and types, and the first that is too high.
//!
//! A node is measured by what its children measure, from the first node of the module to the last, so that no depth of a
//! module can exhaust the stack. What a node means is not known here.
#![tactic(auto)]

mod counted;
mod first;
mod measure;
mod measured;

pub use first::first_too_high;
