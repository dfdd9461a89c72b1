//! The grammar of the language as a table, the tree of a module, and the parser between them.
//!
//! A module is a list of tokens that are told apart by their shape. `specs/Productions` says by cases which lists are a
//! module, and of which tree; `specs/Grammar` says the same as a table, by which the parser works. It takes one token
//! at a time, and keeps what is still to come on a stack of its own, so that a module nests as deep as memory allows.
//!
//! Which bytes have a shape, and what a tree means, is not known here: names, types and limits are other rooms' work.
#![tactic(auto)]

mod builder;
mod first;
mod grammar;
mod methods;
mod modules;
mod names;
mod operands;
mod parser;
mod patterns;
mod shape;
mod stack;
mod statements;
mod symbol;
mod token;
mod tree;
mod types;

pub use parser::{ParseError, parse};
pub use token::{Keyword, Mark, Shape, Terminal};
pub use tree::{FiveChildren, FourChildren, Module, Node, OneChild, ThreeChildren, TwoChildren};
