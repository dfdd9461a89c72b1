//! What a name behind a point means on a value of a type, and the signature of what is called or made.
//!
//! All of it is look-ups: by a type and a name in the tables of a module and of the built-in methods. Which arguments the
//! type parameters of a call get, whether a call or a construction is right, and where any rule is told, is not known
//! here, nor what stands round the name.
#![tactic(auto)]

mod bounds;
mod callee;
mod construction;
mod fields;
mod look_up;
mod mode;
mod receiver;
mod room;
mod rows;
mod seen;

pub use bounds::{bounds_of, kind_bounds};
pub use callee::{Callee, callee_of, given_arguments, parameter_type};
pub use construction::{Construction, constructed_field, construction_of, field_place};
pub use look_up::{
    at_field, call_member, operator_member, part, read_member, static_member, written_member,
};
pub use mode::{is_async_of, mode_of};
pub use receiver::{Receiver, arguments_of, bare_type, kind_of};
pub use room::{Lookup, Member, MemberRoom};
pub use seen::{seen_part, self_type};
