//! From the tree of the grammar to the core form: the declarations of a module, and the module as a whole.
//!
//! Types, patterns and values are made by the rooms below, by a table. What a name means is not known here.
#![tactic(auto)]

mod declarations;
mod methods;
mod whole;

pub use whole::desugar;
