//! The objects of one process, by name, each with the count of its borrows.
//!
//! A contract sees a heap as a finite map from names to objects, and as `spare`, the number of objects for which there
//! is room. What the kinds and tags mean, who borrows, and which objects own one another is not known here.
#![tactic(auto)]

mod fault;
mod heap;
mod index;

pub use fault::{FreeFault, MakeFault, PushFault};
pub use heap::{Heap, MOST_BORROWS};
