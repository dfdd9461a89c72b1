//! Lists whose items are numbered from 1, as processes, mailboxes and futures are.
//!
//! What is numbered is not known here.
#![tactic(auto)]

mod list;

pub use list::Numbered;
