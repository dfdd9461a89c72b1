//! What the rows of Int, Bool and String come to.
//!
//! These rows only compute: from the values that were moved to them they give a value, or raise a panic with a text. Each
//! is a function here, and is exactly its definition in the code machine, for any values at all: operands of another
//! number or kind are answered as wrong in the way that the definition says. The rows that work on objects, and what
//! becomes of a value or a panic, are not known here.
#![tactic(auto)]

mod bool_rows;
mod computed;
mod divided;
mod int_rows;
pub mod operands;
mod shifts;
mod text_rows;
pub mod texts;
mod value_rows;

pub use computed::{Computed, RowFault};
pub use value_rows::value_row;
