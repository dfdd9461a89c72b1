//! The phase Cover: whether the arms of each `match` take every value, or else the least pattern that they leave.
//!
//! Patterns of the core form are put on a sheet by numbers, over their types; which of them leave what is for the room
//! below. How types of nodes are found, and what else is judged of a body, is not known here.
#![tactic(auto)]

mod columns;
mod phase;
mod room;
mod shapes;
mod sheet;
mod told;

pub use phase::cover;
