//! Patterns, types and choices.

/// A pattern by its number, or `_`.
pub type Part = Option<usize>;

/// An alternative of a pattern.
#[derive(Drop)]
pub enum Shape {
    /// Any value.
    Any,
    /// A plain value by its number. Equal values have equal numbers.
    Literal(usize),
    /// A case of the type, by its number from 0, with a pattern for each of its parts.
    Case { case: usize, parts: Vec<Part> },
}

/// A pattern: any of these.
#[derive(Drop)]
pub struct Pattern {
    pub alternatives: Vec<Shape>,
}

/// What values a type has.
#[derive(Drop)]
pub enum Kind {
    /// As many plain values as there are numbers.
    Literals,
    /// These cases in declared order, each with the types of its parts. A type without cases has one plain value, which
    /// no pattern names.
    Cases(Vec<Vec<usize>>),
}

/// An arm: its pattern, and whether it has a guard.
#[derive(Clone, Copy)]
pub struct Arm {
    pub pattern: Part,
    pub is_guarded: bool,
}

/// What a missing pattern has at a place.
#[derive(Clone, Copy)]
pub enum Choice {
    /// `_`.
    Any,
    /// A case by its number. Its parts come behind it.
    Case(usize),
}
