//! What every room above stands on: texts, places and refusals, the journal, and the words that several rooms share.
//!
//! The shared words are plain data: values and the names of objects, limits, tokens, the rows of built-in methods, small
//! lists. Their definitions stand in `specs/`, with those of mail, futures, actions, ends and ownership, which the
//! meaning of a source and the machine that runs its code have in common. Nothing here knows what a program does.
#![tactic(auto)]

mod future;
mod ident;
mod items;
mod journal;
mod limits;
mod object;
mod refusal;
mod row;
mod text;
mod token;
mod value;

pub use future::FutureState;
pub use ident::{BorrowKind, ObjectId};
pub use items::Items;
pub use journal::Journal;
pub use limits::{BadLimit, Limit, Limits};
pub use object::Object;
pub use refusal::{JudgeFault, Place, Refusal, Rule};
pub use row::{Kind, Mode, Slot};
pub use text::{Text, TextFault};
pub use token::{Token, TokenKind};
pub use value::Value;
