//! The phase Moves: no path reaches a use of a variable that was moved on it, and nothing is moved out of a borrow or a
//! field; and what becomes of variables at exits.
//!
//! A body is put into a flow graph from its end to its start: what is built of an expression goes on where it is told to,
//! so that only the heads of loops are reserved and filled afterwards. The order in which children are worked is that of
//! `ink_forms`, and what an exit leaves is said by `ink_exits`. Then one search for each variable that is moved tells
//! where it arrives moved, and where whole (`ink_paths`). Cover and types are taken as found before; unique values are
//! not known here.
#![tactic(auto)]

mod around;
mod body;
mod build;
mod events;
mod fates;
mod judge;
mod receivers;
mod watched;

pub use judge::moves;
