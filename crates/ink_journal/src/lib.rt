//! The journal as the bytes of a file: written, and read again.
//!
//! A file begins with a mark and the number of the format. Behind them stand the count of the entries and the entries
//! themselves, each in four bytes, the most significant first, and nothing follows. What an entry means is not known
//! here, but that it is at least 1.
#![tactic(auto)]

mod read;
mod step;
mod write;

pub use read::{JournalFault, read_journal};
pub use write::write_journal;
