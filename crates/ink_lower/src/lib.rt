//! The walk over the expressions of a method, in the order of work: choices, loops and exits, and how control goes from one
//! form to the next.
//!
//! Where control leaves something, what the drop plan says is dropped. What a form comes to once its operands were worked
//! is said by `ink_operations`, and how patterns are tested and bound by `ink_arms`. How a plan is found, and what a code is
//! made of beside its methods, is not known here.
#![tactic(auto)]

mod around;
mod choices;
mod exits;
mod method;
mod walk;

pub use method::lower_method;
