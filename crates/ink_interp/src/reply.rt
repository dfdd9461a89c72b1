//! What comes back of an action that was made.
use ink_code::Wrong;
use ink_parcel::Parcel;

/// The reply of an action.
#[derive(Drop)]
pub enum Reply {
    /// It was made, and nothing comes back.
    Done,
    /// A message was taken.
    Message { method: u32, parcel: Parcel },
    /// A process of this number was made.
    Process(u32),
    /// A future of this number was made, and its promise.
    NewPair(u32),
    /// The value of a future came.
    Got(Parcel),
}

/// Why a reply wasn't put in its place.
#[derive(Drop)]
pub enum AnswerFault {
    /// The process doesn't wait for it, or the code is wrong in this way. The process isn't used further.
    Wrong(Wrong),
    /// The process is as before, and the reply comes back.
    OutOfMemory(Reply),
}
