//! Patterns in code: whether a value fits one, what the chosen arm of a match binds, and what a guard reads of a value
//! before it is bound.
//!
//! Tests leave all as it was. The chosen arm takes an owned value apart, one part after the other, or binds below a
//! borrow. Each pattern's type is taken as it was found, and tells whether what it is matched with is owned, a borrow or
//! a value. Expressions, guards and the order of arms are not known here.
#![tactic(auto)]

mod binding;
mod cases;
mod context;
mod fitting;
mod literals;
mod names;
mod parts;
mod site;
mod tests;
mod views;

pub use binding::bind;
pub use context::Context;
pub use names::binds;
pub use tests::{Fits, test};
pub use views::read_view;
