//! Why a world ended at a check-in.

/// What ended a world before all of its processes rested.
#[derive(Clone, Copy, Drop)]
pub enum Halt {
    /// The last entry is a panic of this process.
    Panicked(u32),
    /// The sink failed in the print that is the last entry.
    SinkFailed,
    /// The journal is at its limit, and the next action of this process can be made.
    Events(u32),
    /// This process made so many steps since its last action, which is the limit.
    Local(u32, u64),
}
