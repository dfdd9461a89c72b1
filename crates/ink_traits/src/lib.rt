//! The phase Declarations: the types of signatures, and impls against their traits.
//!
//! Each rule of the phase is broken at a byte, and what is told is the least of all that are broken. First each impl says
//! which type has which trait, then the types of signatures are made, and then the methods of impls are compared with
//! those of traits and put at their slots. What names stand for is taken as the phase Names gave it, and bodies aren't
//! looked at.
#![tactic(auto)]

mod allowed;
mod compared;
mod filled;
mod registered;
mod signed;

pub use signed::{Signed, impls};
