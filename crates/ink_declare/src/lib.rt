//! The phase Names: what a module declares, as tables, and what each name in it stands for.
//!
//! Each rule of the phase is broken at a byte, and what is told is the least of all that are broken, so that nothing
//! ends early: a state goes through the whole module, to which each rule tells what it finds. Names are looked up by
//! kind: variables, types, traits, methods of the module and constructors of enums don't hide one another, but a type
//! parameter hides a type. What a type is, and what needs types, is not known here: fields and methods behind a point,
//! named arguments, and which constructor a pattern is of.
#![tactic(auto)]

mod bodies;
mod builder;
mod constructions;
mod declarations;
mod duplicates;
mod entries;
mod imports;
mod known;
mod methods;
mod patterns;
mod program;
mod scope;
mod signatures;
mod state;
mod traits;
mod whole;
mod words;
mod written;

pub use whole::{Declared, declare};
