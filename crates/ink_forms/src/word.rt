//! Numbers of words: names, integers and texts, which stand in tables of a module.

/// The number of a name: each spelling of a module has one.
pub type NameId = u32;

/// The number of an integer's value.
pub type IntegerId = u32;

/// The number of a text's bytes, in which no escape is left.
pub type TextId = u32;

/// A name, and the byte at which it is written.
#[derive(Clone, Copy)]
pub struct Identifier {
    pub name: NameId,
    pub place: u32,
}

/// A value that is written as it is.
#[derive(Clone, Copy)]
pub enum Literal {
    Int(IntegerId),
    Bool(bool),
    Nil,
    Text(TextId),
}

/// What is made, or which constructor a pattern is of.
#[derive(Clone, Copy)]
pub enum Made {
    /// A type, or in a pattern a constructor, by its name alone.
    Named(NameId),
    /// The constructors of the built-in Option and Result.
    Some,
    None,
    Ok,
    Error,
    /// A tuple of two, and one of three.
    Tuple2,
    Tuple3,
}
