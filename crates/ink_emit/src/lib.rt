//! The code of one method as it grows: its instructions with their lines, jumps whose places aren't known yet, and the
//! registers that hold values for later.
//!
//! The registers of variables come first, and values are held above them, each above the ones before. What a form of the
//! source comes to, which variables there are, and when a value is dropped is not known here.
#![tactic(auto)]

mod body;
mod constants;
mod fault;
mod given;
mod held;
mod jumps;
mod needed;

pub use body::Body;
pub use constants::Constants;
pub use fault::{LowerFault, Unsound};
pub use given::Given;
pub use held::{Held, Holding};
pub use jumps::Hole;
