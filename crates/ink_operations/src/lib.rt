//! What a form comes to once its operands were worked: literals, variables, paths, calls, new objects and writes.
//!
//! An operand is held in a register above those of the variables, and each form takes away those that it is over. A path is
//! a root and the fields that are read from it, of which all but a worked root are read late. In which order forms are
//! worked, and how control goes on behind a choice, a loop or an exit, is not known here.
#![tactic(auto)]

mod calls;
mod makes;
mod names;
mod paths;
mod receivers;
mod room;
mod work;
mod writes;

pub use calls::{called_on, give_call, give_listed};
pub use makes::give_new;
pub use names::{give_literal, give_self, give_variable};
pub use paths::{Root, give_borrow, give_field, hold_root, is_late, root_of};
pub use receivers::Called;
pub use room::{Owner, Room};
pub use work::{Guard, Work, add_hole};
pub use writes::{dropped, put_declared, write_field, write_variable};
