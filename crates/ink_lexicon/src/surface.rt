//! What is read while the core form is made.
use ink_grammar::Module;
use ink_tables::{Integers, Names, Texts};
use std::alloc::Global;

/// The names, integers and texts of a module.
#[derive(Drop)]
pub struct Words {
    /// The spellings of the names. A field's has no `@`.
    pub names: Names,
    pub integers: Integers,
    /// The texts without their escapes.
    pub texts: Texts,
}

/// A module of the grammar, its source, and the numbers of its words.
#[derive(Clone, Copy)]
pub struct Surface<'a> {
    pub alloc: Global,
    pub source: &'a [u8],
    pub module: &'a Module,
    pub words: &'a Words,
}
