//! Why a process refuses.
use ink_code::Wrong;
use ink_heap::Heap;

/// Why no frame was entered.
#[derive(Drop)]
pub enum EnterFault {
    /// An argument isn't there. Those before it are lost.
    Wrong(Wrong),
    /// All is as before.
    OutOfMemory,
}

/// Why a value doesn't wait to be dropped. All is as before.
#[derive(Clone, Copy)]
pub enum WaitFault {
    /// It isn't there.
    Wrong(Wrong),
    OutOfMemory,
}

/// Why an object wasn't taken apart. All is as before.
#[derive(Clone, Copy)]
pub enum TakeApartFault {
    /// There is no such object.
    Absent,
    /// So many borrows of it live, which is at least one.
    Borrowed(u64),
    OutOfMemory,
}

/// Why no process started.
#[derive(Drop)]
pub enum StartFault {
    /// The objects come back.
    OutOfMemory(Heap),
}
