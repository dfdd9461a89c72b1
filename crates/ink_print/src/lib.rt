//! The canonical print of a module: one text for each tree, however its source was laid out.
//!
//! It is made in two steps. First the tree becomes a list of pieces, one for each token of the print, by a table of the
//! forms (`specs/Table` and `specs/Printed`). Then each piece is written behind the blanks that it and the piece before
//! it ask for (`specs/Layout`).
//!
//! Which trees are modules, and what they mean, is not known here. A tree that no source has is printed too.
#![tactic(auto)]

mod class;
mod context;
mod expand;
mod forms;
mod layout;
mod print;
mod printer;
mod step;
mod surround;
mod work;

pub use print::print_module;
pub use printer::pieces;

// The words of the definitions, for the laws of the rooms above.
pub use class::Class;
pub use context::{Context, Rank};
pub use step::{Piece, Sign, Slot, Step};
