//! Receivers that can't be moved.

use crate::body::Bodies;
use ink_base::Rule;
use ink_forms::Expr;
use ink_names::Least;

/// The receiver of a call, if the expression may be one that has a receiver.
fn receiver_of(expr: Expr) -> Option<u32> {
    match expr {
        Expr::Call { receiver, .. } => Some(receiver),
        Expr::Operate { receiver, .. } => Some(receiver),
        Expr::Field { base, .. } => Some(base),
        _ => None,
    }
}

/// Whether an expression is a field, or the part of a tuple.
fn is_field(bodies: &Bodies, number: u32) -> bool {
    match bodies.arena.expr(number).expr {
        Expr::Field { .. } => !bodies.is_call(number),
        _ => false,
    }
}

/// Whether an expression is seen as a borrow.
fn is_borrow(bodies: &Bodies, number: u32) -> bool {
    match bodies.typed.type_of(number) {
        Some(of) => bodies.types.is_borrow(of),
        None => false,
    }
}

/// A method that takes its receiver away is called neither on a borrow nor on a field.
fn judge_call(bodies: &Bodies, least: &mut Least, number: u32) {
    let node = bodies.arena.expr(number);
    let Some(receiver) = receiver_of(node.expr) else {
        return;
    };
    if bodies.moves_receiver(number)
        && (is_field(bodies, receiver) || is_borrow(bodies, receiver))
    {
        least.break_at(Rule::MoveOutOfBorrow, node.place);
    }
}

/// Judges the calls of all bodies.
pub(crate) fn judge_receivers(bodies: &Bodies, least: &mut Least) {
    for number in 0..bodies.arena.len() {
        judge_call(bodies, least, number as u32);
    }
}
