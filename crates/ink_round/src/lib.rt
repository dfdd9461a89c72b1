//! The print of a source, which is read as the same module.
//!
//! A source is read, and the tree that it has is printed. How the print is laid out, how it is scanned and how it is
//! parsed again stand in the rooms below; here their laws meet.
#![tactic(auto)]

mod again;
mod print;

pub use again::print_reads_back;
pub use print::print_source;
