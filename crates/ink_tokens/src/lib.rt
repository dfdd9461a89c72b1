//! The tokens of a source, by their kinds and the bytes that they take.
//!
//! What stands between two tokens is dropped, but for the line feeds that a token remembers. Texts give several tokens.
//! Nothing here knows which tokens follow one another in a module.
#![tactic(auto)]

mod bytes;
mod fault;
mod found;
mod gap;
mod integer;
mod lexing;
mod longest;
mod nesting;
mod number;
mod part;
mod reading;
mod scanner;
mod words;

pub use lexing::tokens;
pub use longest::longest_match;

// The words of the definitions, for the laws of the rooms above.
pub use bytes::Class;
pub use fault::Fault;
pub use reading::{Before, Change, Found, Level, Match, Read};
