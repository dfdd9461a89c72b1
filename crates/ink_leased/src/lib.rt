//! The world of a run as a state that workers lease processes of, and a run by workers.
//!
//! How a turn is taken and which process is to run next are not known here; nor is what an action does.
#![tactic(auto)]

mod away;
mod home;
mod leased;
mod lending;
mod running;

pub use away::Away;
pub use leased::{Began, Leased};
pub use running::run_workers;
