//! A run made again from its journal: the entries one by one, and how the run stands behind the last of them.
//!
//! Where the journal comes from is not known here, nor what makes a run that is no replay.
#![tactic(auto)]

mod entries;
mod replaying;
mod rest;

pub use ink_run::{End, World};
pub use replaying::{ReplayFault, ReplayStop, Replayed, replay};
