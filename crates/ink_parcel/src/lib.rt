//! Parts of a heap that go from one process to another: some values with all objects that they own.
//!
//! `cut` moves the ownership tree of values out of a heap, `join` puts it into another, and `is_under` looks for one
//! object in such a tree. They walk with lists and not by recursion, so that a tree may be as high as memory allows. Who
//! sends and who receives is not known here.
#![tactic(auto)]

mod cutting;
mod fault;
mod joining;
mod parcel;
mod tree;
mod under;

pub use cutting::cut;
pub use fault::{CutFault, JoinFault};
pub use joining::join;
pub use parcel::Parcel;
pub use under::is_under;
