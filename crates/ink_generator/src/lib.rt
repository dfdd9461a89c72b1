//! A module made for a number: that many methods, and a process that is sent what each of them computes.
//!
//! It is as long as is wanted, and what it prints is known, so it serves to measure and to try. How it is read and run
//! is not known here.
#![tactic(auto)]

mod module;

pub use module::make_module;
