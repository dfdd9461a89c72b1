//! The steps of a process but for the built-in rows: one function for each instruction, exactly as the code machine says.
//!
//! The process is `Proc`, and each function leaves it as the definition of its instruction in ink_code does, or says in
//! which way the instruction is wrong. Which instruction is next, and what other processes do, is not known here.
#![tactic(auto)]

mod calls;
mod drops;
mod makes;
mod moves;
mod objects;
mod reads;
mod stepped;
mod wants;

pub use calls::{call_if_room, end_frame, invoke_bound_step, invoke_step, return_step};
pub use drops::{drop_maybe_step, drop_next, drop_step, take_apart_step};
pub use makes::{make_array_step, make_step};
pub use moves::{
    borrow_step, const_step, copy_step, exchange_step, jump_if_step, jump_step, move_step,
    my_proc_step, panic_step,
};
pub use objects::{load_borrow_step, load_step, store_step, tag_step};
pub use stepped::{Request, StepFault, Stepped};
pub use wants::{
    future_get_step, future_new_step, print_step, promise_set_step, send_step, spawn_step,
};
