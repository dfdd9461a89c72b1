//! Why a message wasn't sent.
use ink_parcel::Parcel;

/// A message wasn't sent. What it was to carry comes back.
#[derive(Drop)]
pub enum SendFault {
    /// No process has that number.
    NoBox(Parcel),
    /// So many messages are unread, and no more are allowed.
    Full(Parcel),
    /// There is no memory for it, or 2^64 - 1 messages were sent there.
    OutOfMemory(Parcel),
}
