//! Which trees are what: a module, a declaration, a type, an expression, a pattern, whatever the source was laid out
//! like.
//!
//! The parser gives trees of these categories alone. What a tree is printed as, and that the print is read as the same tree,
//! is said of them in the rooms above.
#![tactic(auto)]

pub mod sample;
pub mod texts;
pub mod well_formed;

pub use sample::sample_module;
pub use texts::parts_apart;
pub use well_formed::well_formed_trees;
