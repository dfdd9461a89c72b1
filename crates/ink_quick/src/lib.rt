//! Steps that touch the registers and the place of one frame and nothing else, made many at a time.
//!
//! A step that isn't one of these isn't made, and says nothing of the frame: it is left to the rooms above, which make every
//! step. So what is here is only sooner. The frames around, the objects, drops, limits and what a panic is are not known
//! here.
#![tactic(auto)]

mod in_frame;
mod moves;
mod numbers;

pub use in_frame::run_in_frame;
