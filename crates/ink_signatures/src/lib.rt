//! The types of signatures: what the written types of a module stand for, as type terms, and the rules on how they are
//! written.
//!
//! Each rule is broken at a byte, and what is told is the least of all that are broken, so that nothing ends early. A
//! written type of a body goes by the same rules as one of a declaration, so that a later phase asks here too. Which type
//! has which trait is taken as given: how impls are judged is not known here, nor is what a body does.
#![tactic(auto)]

mod bounds;
mod declared;
mod own;
mod room;
mod rules;
mod signatures;
mod written;

pub use bounds::meets;
pub use declared::signature_types;
pub use own::{add_kinds, own_types};
pub use room::{Owner, Room, Site, State};
pub use signatures::Signatures;
pub use written::{Judged, written_type};
