//! Rules on variables, `self`, and paths of fields.

use crate::room::{Room, Within};
use crate::usage::{Behind, Usage};
use ink_base::Rule;
use ink_crossing::{hangs, is_declared_before, is_hidden};
use ink_forms::ExprId;
use ink_names::Least;

/// Whether what a `recover` hides may be used so: as the receiver of a call, which crosses then, or at the head of a path
/// whose last field is read and has a value type.
fn is_use_of_hidden(usage: Usage) -> bool {
    match usage {
        Usage::Receiver => true,
        Usage::Base(behind) => behind.last_is_value,
        Usage::Given | Usage::Place => false,
    }
}

/// Whether a variable from outside of the nearest guard is used in it whose type can't be borrowed.
fn is_unborrowable_in_guard(room: Room, within: Within, number: ExprId) -> bool {
    match within.guard {
        Some(start) => {
            room.sight.is_unborrowable(number) && is_declared_before(room.sight, start, number)
        }
        None => false,
    }
}

/// A variable that a `recover` hides has two uses. In a guard, a variable of unborrowable type from outside has none.
pub(crate) fn judge_variable(
    room: Room,
    within: Within,
    least: &mut Least,
    number: ExprId,
    start: u32,
    usage: Usage,
) {
    if is_hidden(room.sight, within.recover, number) && !is_use_of_hidden(usage) {
        least.break_at(Rule::HiddenInRecover, start);
    }
    if is_unborrowable_in_guard(room, within, number) {
        least.break_at(Rule::BorrowOfUni, start);
    }
}

/// Whether `self` stands for its process, and not for an object or a state.
fn is_process(room: Room, number: ExprId, usage: Usage) -> bool {
    match usage {
        Usage::Given => room.sight.is_value(number),
        _ => false,
    }
}

/// In a `recover` `self` is hidden, unless it stands for its process.
pub(crate) fn judge_self(
    room: Room,
    within: Within,
    least: &mut Least,
    number: ExprId,
    start: u32,
    usage: Usage,
) {
    if within.recover.is_some() && !is_process(room, number, usage) && !is_use_of_hidden(usage) {
        least.break_at(Rule::HiddenInRecover, start);
    }
}

/// Whether a field of unborrowable type may be used so. Written it isn't read; read it is a receiver, or the base of a
/// field that is written, or is read and has a value type.
fn is_use_of_unborrowable(usage: Usage) -> bool {
    match usage {
        Usage::Receiver | Usage::Place => true,
        Usage::Base(behind) => behind.next_is_value,
        Usage::Given => false,
    }
}

/// Whether a field may be used so. One of a value type always may. What hangs in a unique value may be a receiver, a base
/// or what is written.
fn is_use_of_field(room: Room, number: ExprId, usage: Usage) -> bool {
    if room.sight.is_value(number) {
        return true;
    }
    if room.sight.is_unborrowable(number) {
        return is_use_of_unborrowable(usage);
    }
    match usage {
        Usage::Given => !hangs(room.sight, number),
        _ => true,
    }
}

/// A field that hangs in a unique value, or is of unborrowable type, has a few uses.
pub(crate) fn judge_field(room: Room, least: &mut Least, number: ExprId, start: u32, usage: Usage) {
    if !is_use_of_field(room, number, usage) {
        least.break_at(Rule::BorrowOfUni, start);
    }
}

/// How the base of a field is used, by how the field is.
pub(crate) fn usage_of_base(room: Room, number: ExprId, usage: Usage) -> Usage {
    let is_value = room.sight.is_value(number);
    Usage::Base(match usage {
        Usage::Place => Behind {
            next_is_value: true,
            last_is_value: false,
        },
        Usage::Base(behind) => Behind {
            next_is_value: is_value,
            last_is_value: behind.last_is_value,
        },
        Usage::Given | Usage::Receiver => Behind {
            next_is_value: is_value,
            last_is_value: is_value,
        },
    })
}

/// What has an unborrowable type isn't borrowed.
pub(crate) fn judge_borrow(room: Room, least: &mut Least, start: u32, operand: ExprId) {
    if room.sight.is_unborrowable(operand) {
        least.break_at(Rule::BorrowOfUni, start);
    }
}
