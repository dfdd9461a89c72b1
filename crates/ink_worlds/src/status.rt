//! How a process stands in a world.

/// The status of a process.
#[derive(Clone, Copy, Drop)]
pub enum Status {
    /// It can be lent.
    Ready,
    /// It is lent under this seat, and had made so many steps since its last action when it was.
    Out(u32, u64),
    /// It is at a take, and has no unread message.
    Idle,
    /// It is at a get of this future, which is neither set nor broken.
    Held(u32),
    /// It makes no further step.
    Stopped,
}
