//! The plan of the drops of a module: which variables end at each exit, in which order, and whether each surely holds its
//! value there; and the register of each variable.
//!
//! What an exit leaves is said by `ink_exits`, and what has become of a variable there by `Moves`. The code that drops,
//! and which types need no drop, is not known here.
#![tactic(auto)]

mod plan;
mod registers;

pub use plan::{DropPlan, How, Planned, drop_plan};
pub use registers::Registers;
