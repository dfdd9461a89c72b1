//! A process as its interpreter works on it: frames with registers, objects, and drops that wait.
//!
//! A contract sees a process as the record that the code machine is written over (`state_of`), the frames as a list with
//! the innermost in front, and the drops that wait as a list with the next in front. In memory the front of each list is
//! the end of a vector. What an instruction does is not known here.
#![tactic(auto)]

mod copying;
mod fault;
mod frames;
mod moving;
mod pending;
mod process;
mod putting;

pub use copying::{borrow_of, count_copy, has_room};
pub use fault::{EnterFault, StartFault, TakeApartFault, WaitFault};
pub use frames::Frames;
pub use pending::Pending;
pub use process::Proc;
pub use putting::put_over;
