//! The report of a panic as text: who panicked, with which text, and through which calls.
//!
//! What is asked of the process and the code is their names, numbers and lines. How a process came to panic, and where
//! the report goes, are not known here.
#![tactic(auto)]

mod lines;
mod reporting;

pub use reporting::report;
