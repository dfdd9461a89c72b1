//! The mail of a run: a mailbox for each process, whose messages are taken from the front.
//!
//! Who sends, and what is done with a message, is not known here.
#![tactic(auto)]

mod fault;
mod mailbox;
mod mailboxes;
mod message;

pub use fault::SendFault;
pub use mailboxes::Mailboxes;
pub use message::Message;
