//! The built-in methods by types: which types have them, and the type of what goes into each and comes out.
//!
//! What the type of the receiver is given, the items of an Array for one, is the type parameter 0 here: who types a call
//! puts its own in the place of it. What a method does, and which names the methods have, is not known here.
#![tactic(auto)]

mod kinds;
mod slots;

pub use kinds::{kind_of, row_kind_of};
pub use slots::{receiver_type, slot_type};
