//! What the table of core forms sees of a module: the nodes of its tree by their numbers, and its words by theirs.
//!
//! Names, integers and texts are found by their spelling; `panic`, `Some`, `None`, `Ok` and `Error` are known by it too.
//! What a node of the tree becomes, and what a name means, is not known here.
#![tactic(auto)]

mod numbering;
mod surface;
mod trees;
mod words;

pub use numbering::words_of;
pub use surface::{Surface, Words};
pub use trees::{alternatives_of, has_word, is_written, items_of, start_of, token_of};
pub use words::{
    NO_WORD, borrow_kind, empty_literal, identifier, integer, integer_literal, is_panic, made_of,
    name, operator_of, text_literal, to_string_name, try_name,
};
