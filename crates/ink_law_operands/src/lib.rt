//! That the table of built-in methods names the kinds of operands that the machine takes.
//!
//! Only definitions are spoken of: the table, and what a row comes to. How a row is computed is not known here.
#![tactic(auto)]

mod operands;

pub use operands::rows_judge_operands;
