//! The processes of a run and what goes between them: which are at home, the mail, the futures, the journal, and what a
//! process that comes home comes to.
//!
//! What a print hands out is not written here: a call answers the line. Which process is lent, and when, is not known here.
#![tactic(auto)]

mod acting;
mod answer;
mod asking;
mod ending;
mod exchange;
mod homes;
mod making;
mod post;
mod sharing;
mod started;
mod turns;

pub use answer::{ActFault, Answer, Came, CheckFault, End, Looked, NotReady};
pub use post::Post;
pub use turns::came_of;
