//! Whether all that a code names is there: registers, places, constants, methods, types and rows.
//!
//! A code that is within its ranges can still be wrong in a run, where a register is empty or holds a value of another
//! kind. What a code is made of is not known here.
#![tactic(auto)]

mod code;
mod instr;
mod sizes;
mod tests;

pub use code::is_within;
pub use sizes::Sizes;
pub use tests::has_no_tests;
