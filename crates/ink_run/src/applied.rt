//! What the calls of a world answer.

/// What a check-in came to.
#[derive(Clone, Copy)]
pub enum Applied {
    /// The process is home, and nothing else was done.
    Kept,
    /// The action was made, and an entry added.
    Moved,
    /// The action can't be made now.
    Waits,
    /// The action that was made is a panic, and an entry was added.
    Panicked,
    /// The sink failed in the print that was made. Its entry was added.
    SinkFailed,
    /// The action can be made, and the journal is at its limit.
    JournalFull,
    /// So many steps were made since the last action, which is the limit.
    Spent(u64),
    /// The code is wrong: no such instruction, or the reply to the action fits nowhere.
    Wrong,
}

/// Why no run began. The sink comes back.
#[derive(Drop)]
pub enum BeginFault<K: Drop> {
    OutOfMemory(K),
}
