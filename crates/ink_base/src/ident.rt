//! Names of what a program makes and borrows.
ghost use Rattle.std.specs.Prelude.{◌≡◌};
ghost use Rattle.ink_base.specs.Ident.{id_cmp};

use std::cmp::Ordering;

/// The name of an object: the process that made it, and its number among the objects of that process.
///
/// Both count from 1. Object 1 of a process is its state. An object keeps its name when it goes to another process.
#[derive(Clone, Copy, Debug, PartialEq, Eq, PartialOrd, Ord)]
pub struct ObjectId {
    pub process: u32,
    pub serial: u64,
}

impl ObjectId {
    /// How it stands to another name: by process, and within one by serial.
    pub fn compare(&self, other: &ObjectId) -> Ordering
        ensures { result ≡ id_cmp self.now other.now }
    {
        self.cmp(other)
    }
}

/// The two kinds of borrow: one reads, the other may write too.
#[derive(Clone, Copy, Debug, PartialEq, Eq)]
pub enum BorrowKind {
    Ref,
    Mut,
}
