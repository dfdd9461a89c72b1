//! The interpreter: one step of a process, a slice of steps, and the answer to an action that was made.
//!
//! Each is exactly what the code machine says of the process, which a contract sees as the machine's record. Which process
//! runs, what becomes of an action, and where a reply comes from is not known here.
#![tactic(auto)]

mod answering;
mod begin;
mod instr;
mod prim;
mod quick;
mod reply;
mod slicing;
mod stepping;

pub use answering::answer;
pub use ink_steps::{Request, StepFault, Stepped};
pub use reply::{AnswerFault, Reply};
pub use slicing::slice;
pub use stepping::step;
