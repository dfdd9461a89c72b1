//! The words by which the table of built-in methods is written.
//!
//! A built-in method is a row: a name, what has the method, how, and what goes in and comes out. What a row does is not
//! known here.

/// The built-in types that have built-in methods.
#[derive(Clone, Copy)]
pub enum Kind {
    Int,
    Bool,
    Str,
    Array,
    Option,
    Future,
    Promise,
    Stdout,
}

/// How a row takes its receiver.
#[derive(Clone, Copy)]
pub enum Mode {
    /// `fn`: it reads the receiver.
    Read,
    /// `fn mut`: it changes the receiver.
    Mutate,
    /// `fn move`: it takes the receiver.
    Move,
    /// Static: it has none.
    Static,
}

/// What goes into a row, or comes out of it.
#[derive(Clone, Copy)]
pub enum Slot {
    Int,
    Bool,
    Str,
    Nil,
    Stdout,
    /// The type that the receiver's type is given.
    Item,
    /// The tuple of a future and its promise.
    Pair,
    OptInt,
    OptStr,
    OptItem,
    /// An Option of a `ref` of an item.
    OptRef,
    /// An Option of a `mut` of an item.
    OptMut,
}
