//! That the tokens of a source nest: what a scanner gives closes what it opens.
//!
//! Only the definitions of a scanner are spoken of, and of the tokens as the grammar sees them. Which tokens follow one
//! another in a module is not known here.
#![tactic(auto)]

mod nests;

pub use nests::tokens_nest;
