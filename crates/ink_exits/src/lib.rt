//! The exits of bodies, and the variables that each leaves.
//!
//! An exit is the end of a block, of an arm or of a body, a return, a break or a next. The end of a block is named by
//! the block, that of an arm by its pattern, that of a body by its method, and a jump by its own node. A variable is
//! named by the first node that declares it, and a moved `self` by its method. So what the end of a block leaves are the
//! variables that the block declares, and so with arms and bodies. A jump in the guard of an arm leaves nothing of that
//! arm: what its pattern names is looked at there, and bound behind the guard. What a name means, and what is moved, is
//! not known here.
#![tactic(auto)]

mod exits;
mod scope;
mod walk;

pub use exits::Exits;
pub use walk::add_method;
