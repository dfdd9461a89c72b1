//! The table of the built-in methods.
//!
//! Its rows are those of the shared table of definitions, numbered from 0 in the same order. Who looks a method up, by
//! its name and the type that has it, gets its number, and by the number its row. What a row does when it runs is not
//! known here.
#![tactic(auto)]

mod row;
mod rows;
mod table;

pub use row::Row;
pub use table::{number_of, row_at};
