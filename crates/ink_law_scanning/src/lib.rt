//! That what is printed is read as the tokens that were printed: pieces that may follow one another, laid out with their
//! blanks and lines, are scanned as just these pieces.
//!
//! Only the definitions of the layout and of a scanner are spoken of. Which pieces a tree is printed as is not known here.
#![tactic(auto)]

mod lexes;
mod prints;

pub use lexes::pieces_lex;
pub use prints::print_lexes;
