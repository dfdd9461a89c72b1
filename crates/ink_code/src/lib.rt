//! The code that processes run, and the machine that runs it, as definitions.
//!
//! A code is a list of methods with their instructions, the constants, the names of types and the methods of impls.
//! `specs/` says what each instruction does to a process, and what a run of many processes comes to: that is all of the
//! machine, over plain data. Of a process it has the frames here, which the rooms above share. An interpreter is proved
//! against it elsewhere, and what makes code is not known here.
#![tactic(auto)]

mod code;
mod frame;
mod instr;
mod kinds;
mod lines;
mod method;
mod numbers;
pub mod row_numbers;
mod wrong;

pub use code::{Code, Impl};
pub use frame::Frame;
pub use instr::Instr;
pub use kinds::{ARRAY_KIND, NONE_TAG, OPTION_KIND, SOME_TAG, STDOUT_KIND};
pub use lines::{instr_line, listing};
pub use method::Method;
pub use wrong::Wrong;
