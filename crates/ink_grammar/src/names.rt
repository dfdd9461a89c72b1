//! Short names of the symbols, so that a production reads as a line.

pub mod action;
pub mod part;
pub mod token;
