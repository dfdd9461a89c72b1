//! The rule of each form of expression: its type by those of its parts, and what is broken where.
//!
//! A part that breaks a rule, or that rests on one that does, has no type, and a form that rests on it is not judged.
//! Each rule that is broken is told, and nothing ends early. In which order expressions are walked, and what is expected
//! of each, is not known here.
#![tactic(auto)]

mod borrows;
mod calls;
mod choices;
mod fields;
mod jumps;
mod names;
mod parameters;
mod places;
mod read_only;
mod room;
mod values;
mod written;

pub use borrows::{borrow_rule, recover_rule};
pub use calls::{
    Awaited, Calling, begin_call, begin_construction, begin_function, begin_on, begin_operator,
    begin_static, finish, next_argument, take_argument,
};
pub use choices::{Arms, array_rule, condition_wanted, item_wanted, next_arm, start_arms};
pub use fields::{Selected, select_member};
pub use jumps::{jump_rule, loop_rule, never_rule, nil_rule, panic_wanted};
pub use names::{self_rule, variable_rule};
pub use places::{field_place, set_rule, static_place, swap_rule, variable_place};
pub use room::{Guard, Operand, Room, Spot, State, Within};
pub use values::literal_rule;
pub use written::{annotation_type, give_type, written_at};
