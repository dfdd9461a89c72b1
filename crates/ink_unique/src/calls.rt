//! Rules on what crosses into a unique value: by a call, a write or a swap.

use crate::room::{Room, Within};
use crate::usage::Usage;
use ink_base::Rule;
use ink_crossing::{hangs, is_crossing};
use ink_findings::Target;
use ink_forms::{ExprId, Mode};
use ink_members::{is_async_of, mode_of};
use ink_names::Least;

/// Whether what is called is a `fn` or a `fn mut`, and no message.
fn is_borrowing(room: Room, target: Target) -> bool {
    if is_async_of(room.tables, target) {
        return false;
    }
    match mode_of(room.tables, target) {
        Mode::Plain | Mode::Mut => true,
        Mode::Move | Mode::Static => false,
    }
}

/// How the receiver of a call is used.
pub(crate) fn usage_of_receiver(room: Room, call: ExprId) -> Usage {
    let Some(target) = room.sight.typed.target(call) else {
        return Usage::Given;
    };
    if is_borrowing(room, target) {
        Usage::Receiver
    } else {
        Usage::Given
    }
}

/// Whether a call crosses into a unique value.
fn crosses(room: Room, within: Within, call: ExprId, receiver: ExprId) -> bool {
    match usage_of_receiver(room, call) {
        Usage::Receiver => is_crossing(room.sight, within.recover, receiver),
        _ => false,
    }
}

/// What goes into a unique value may be sent.
fn judge_sent(room: Room, least: &mut Least, value: ExprId) {
    if !room.sight.is_sendable(value) {
        let start = room.sight.arena.expr(value).start;
        least.break_at(Rule::CrossingArgument, start);
    }
}

/// What goes into a unique value with a call may be sent.
fn judge_arguments(room: Room, least: &mut Least, arguments: &[ExprId]) {
    for argument in arguments {
        judge_sent(room, least, *argument);
    }
}

/// What comes out of a unique value, by a call or a swap at this byte, may be sent.
fn judge_outcome(room: Room, least: &mut Least, number: ExprId, place: u32) {
    if !room.sight.is_sendable(number) {
        least.break_at(Rule::CrossingResult, place);
    }
}

/// The arguments and the result of a call that crosses may be sent.
pub(crate) fn judge_call(
    room: Room,
    within: Within,
    least: &mut Least,
    call: ExprId,
    place: u32,
    receiver: ExprId,
    arguments: &[ExprId],
) {
    if crosses(room, within, call, receiver) {
        judge_arguments(room, least, arguments);
        judge_outcome(room, least, call, place);
    }
}

/// What is written into a unique value may be sent.
pub(crate) fn judge_write(room: Room, least: &mut Least, written: ExprId, value: ExprId) {
    if hangs(room.sight, written) {
        judge_sent(room, least, value);
    }
}

/// What a swap takes out of a unique value may be sent. It goes by the type of the field.
pub(crate) fn judge_swap(room: Room, least: &mut Least, place: u32, swapped: ExprId) {
    if hangs(room.sight, swapped) {
        judge_outcome(room, least, swapped, place);
    }
}
