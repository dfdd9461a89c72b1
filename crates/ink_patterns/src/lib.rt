//! Written types and patterns, by the table of core forms.
//!
//! Each node of the grammar is read as one of a few forms over the nodes below it, those below are made first, and then
//! its own node over them. What a value is, and what a name means, is not known here.
#![tactic(auto)]

mod depth;
mod pattern_form;
mod patterns;
mod type_form;
mod written;

pub use depth::{DEEPEST, deeper};
pub use patterns::pattern;
pub use written::{optional_type, types, written_type};
