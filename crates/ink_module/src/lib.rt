//! The core form of a module as one value: its nodes, its declarations, and the tables of its words and lines.
//!
//! Nothing in it needs the source. How it is made, and what is judged of it, is not known here.
#![tactic(auto)]

use ink_forms::{Arena, Declarations};
use ink_tables::{Integers, Lines, Names, Texts};

/// The core form of a module.
#[derive(Drop)]
pub struct CoreModule {
    /// Expressions, patterns, written types, parameters and methods.
    pub arena: Arena,
    pub declarations: Declarations,
    /// The spellings of its names.
    pub names: Names,
    /// The values of its integers.
    pub integers: Integers,
    /// Its texts, without escapes.
    pub texts: Texts,
    /// Where the lines of its source begin.
    pub lines: Lines,
}
