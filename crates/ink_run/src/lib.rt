//! A run of a code whose prints go out to a sink: the processes and what goes between them, and the sink.
//!
//! Which process is to run next is not known here.
#![tactic(auto)]

mod applied;
mod line;
mod world;

pub use applied::{Applied, BeginFault};
pub use ink_post::{ActFault, Came, CheckFault, End, Looked, NotReady, came_of};
pub use world::World;
