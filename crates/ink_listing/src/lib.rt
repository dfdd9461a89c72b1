//! A core form as text, for people and for tests.
//!
//! A node is listed as a word with its places and its children behind it, in parentheses; a name, a literal or a word
//! alone where it has none. `@7` is the byte at which a node begins, `@7/9` tells its own place too where that is
//! another, and `@7-12` the closing brace of a block. Nothing is promised of the text: the listing only reads.
#![tactic(auto)]

mod declarations;
mod expressions;
mod item;
mod nodes;
mod output;
mod words;

pub use declarations::list_module;
pub use output::list_expr;
