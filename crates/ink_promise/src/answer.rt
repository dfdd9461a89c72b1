//! What the calls of the futures answer.
use ink_parcel::Parcel;

/// What a get comes to that need not wait.
#[derive(Drop)]
pub enum Got {
    /// This value was set. It is taken now.
    Held(Parcel),
    /// None was set, and none will be.
    Broken,
}

/// The future is neither set nor broken, or its value was taken, or there is no such future.
#[derive(Clone, Copy)]
pub struct NotYet;

/// Why no future was made.
#[derive(Clone, Copy)]
pub enum FuturesFault {
    /// So many were made, and no more are allowed.
    Full,
    /// There is no memory for one more.
    OutOfMemory,
}
