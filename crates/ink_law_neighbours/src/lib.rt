//! That the pieces of a module's print may follow one another.
//!
//! Which pieces may is a definition on pieces alone: where a word may stand, and what is open. How pieces are laid out,
//! and what a scanner makes of their bytes, is not known here.
#![tactic(auto)]

mod follows;

pub use follows::print_follows;
