//! The states of a future.
//!
//! Who sets a future and who waits for it is not known here.

/// How a future stands, where values of this type are set.
#[derive(Drop)]
pub enum FutureState<T> {
    /// No value was set yet, and one can still be.
    Open,
    /// This value was set, and not taken yet.
    Set(T),
    /// None was set, and none will be.
    Broken,
    /// The value was set and taken.
    Taken,
}
