//! The walk over expressions, which asks each rule where it can be broken.
ghost use Rattle.std.specs.Prelude.{IfSome};
ghost use Rattle.ink_forms.specs.Views as view;

use crate::calls::{judge_call, judge_swap, judge_write, usage_of_receiver};
use crate::paths::{judge_borrow, judge_field, judge_self, judge_variable, usage_of_base};
use crate::patterns::{Below, judge_pattern};
use crate::results::{judge_jump, judge_result, judge_return};
use crate::room::{Room, Within};
use crate::usage::Usage;
use ink_forms::{Arm, Children, Expr, ExprId};
use ink_names::Least;

/// The rules on an expression that is used so.
#[cycle(walk)]
pub(crate) fn walk(room: Room, within: Within, least: &mut Least, number: ExprId, usage: Usage) {
    let node = room.sight.arena.expr(number);
    match node.expr {
        Expr::Var { .. } => judge_variable(room, within, least, number, node.start, usage),
        Expr::SelfValue => judge_self(room, within, least, number, node.start, usage),
        Expr::Field { base, .. } => match room.sight.typed.target(number) {
            Some(_) => {
                judge_call(room, within, least, number, node.place, base, &[]);
                let usage = usage_of_receiver(room, number);
                walk(room, within, least, base, usage);
            }
            None => {
                judge_field(room, least, number, node.start, usage);
                let usage = usage_of_base(room, number, usage);
                walk(room, within, least, base, usage);
            }
        },
        Expr::Call {
            receiver,
            arguments,
            ..
        } => walk_call(room, within, least, number, receiver, arguments),
        Expr::Operate {
            receiver,
            argument,
            ..
        } => {
            judge_call(
                room,
                within,
                least,
                number,
                node.place,
                receiver,
                &[argument],
            );
            let usage = usage_of_receiver(room, number);
            walk(room, within, least, receiver, usage);
            walk(room, within, least, argument, Usage::Given);
        }
        _ => walk_inner(room, within, least, number),
    }
}

/// The rules on an expression that says where what is in it stands, or how it is used.
#[cycle(walk)]
fn walk_inner(room: Room, within: Within, least: &mut Least, number: ExprId) {
    let node = room.sight.arena.expr(number);
    match node.expr {
        Expr::Set { place, value } => {
            judge_write(room, least, place, value);
            walk(room, within, least, place, Usage::Place);
            walk(room, within, least, value, Usage::Given);
        }
        Expr::Swap { place, value } => {
            judge_swap(room, least, node.place, place);
            walk(room, within, least, place, Usage::Place);
            walk(room, within, least, value, Usage::Given);
        }
        Expr::Borrow { operand, .. } => {
            judge_borrow(room, least, node.start, operand);
            walk(room, within, least, operand, Usage::Given);
        }
        Expr::Recover { operand } => {
            judge_result(room, least, operand);
            let within = within.recovered(node.start);
            walk(room, within, least, operand, Usage::Given);
        }
        Expr::Loop { body } => walk(room, within.looped(), least, body, Usage::Given),
        Expr::Break | Expr::Next => judge_jump(within, least, node.start),
        Expr::Return { value } => {
            judge_return(within, least, node.start);
            walk(room, within, least, value, Usage::Given);
        }
        _ => walk_lists(room, within, least, number),
    }
}

/// The rules on an expression with a list.
#[cycle(walk)]
fn walk_lists(room: Room, within: Within, least: &mut Least, number: ExprId) {
    match room.sight.arena.expr(number).expr {
        Expr::New { arguments, .. } => walk_arguments(room, within, least, number, arguments),
        Expr::NewOf { arguments, .. } => walk_arguments(room, within, least, number, arguments),
        Expr::Match {
            scrutinee,
            arms,
            ..
        } => {
            walk(room, within, least, scrutinee, Usage::Given);
            walk_arms(room, within, least, number, arms);
        }
        Expr::Block { statements, .. } => walk_all(room, within, least, number, statements),
        Expr::Arr { items } => walk_all(room, within, least, number, items),
        Expr::Fn { arguments, .. } => walk_all(room, within, least, number, arguments),
        Expr::Static { arguments, .. } => walk_all(room, within, least, number, arguments),
        Expr::Panic { arguments } => walk_all(room, within, least, number, arguments),
        _ => walk_child(room, within, least, number),
    }
}

/// The rules on an expression that only hands a value on, or has none.
#[cycle(walk)]
fn walk_child(room: Room, within: Within, least: &mut Least, number: ExprId) {
    match room.sight.arena.expr(number).expr {
        Expr::Let { value, .. } => walk(room, within, least, value, Usage::Given),
        Expr::TypedLet { value, .. } => walk(room, within, least, value, Usage::Given),
        Expr::Drop { value } => walk(room, within, least, value, Usage::Given),
        Expr::Statement { value } => walk(room, within, least, value, Usage::Given),
        _ => {}
    }
}

/// The rules on some expressions.
#[cycle(walk)]
fn walk_all(room: Room, within: Within, least: &mut Least, parent: ExprId, children: Children)
    requires { view.AreBefore room.sight.arena.now parent children }
{
    for child in room.sight.arena.list(children) {
        walk(room, within, least, *child, Usage::Given);
    }
}

/// The rules on a call, which is `parent`.
#[cycle(walk)]
fn walk_call(
    room: Room,
    within: Within,
    least: &mut Least,
    parent: ExprId,
    receiver: ExprId,
    arguments: Children,
)
    requires receiver { view.IsBefore parent receiver }
    requires arguments { view.AreBefore room.sight.arena.now parent arguments }
{
    let place = room.sight.arena.expr(parent).place;
    let list = room.sight.arena.list(arguments);
    judge_call(room, within, least, parent, place, receiver, list);
    let usage = usage_of_receiver(room, parent);
    walk(room, within, least, receiver, usage);
    walk_all(room, within, least, parent, arguments);
}

/// The rules on arguments of a new object.
#[cycle(walk)]
fn walk_arguments(
    room: Room,
    within: Within,
    least: &mut Least,
    parent: ExprId,
    arguments: Children,
)
    requires { view.AreArgumentsBefore room.sight.arena.now parent arguments }
{
    for argument in room.sight.arena.arguments(arguments) {
        walk(room, within, least, argument.value, Usage::Given);
    }
}

/// The rules on a guard.
#[cycle(walk)]
fn walk_guard(room: Room, within: Within, least: &mut Least, parent: ExprId, guard: Option<ExprId>)
    requires { IfSome guard (view.IsBefore parent) }
{
    if let Some(guard) = guard {
        let start = room.sight.arena.expr(guard).start;
        walk(room, within.guarded(start), least, guard, Usage::Given);
    }
}

/// The rules on an arm.
#[cycle(walk)]
fn walk_arm(room: Room, within: Within, least: &mut Least, parent: ExprId, arm: Arm)
    requires { view.IsArmBefore parent arm }
{
    judge_pattern(room, least, Below::Owned, arm.pattern);
    walk_guard(room, within, least, parent, arm.guard);
    walk(room, within, least, arm.value, Usage::Given);
}

/// The rules on arms.
#[cycle(walk)]
fn walk_arms(room: Room, within: Within, least: &mut Least, parent: ExprId, arms: Children)
    requires { view.AreArmsBefore room.sight.arena.now parent arms }
{
    for arm in room.sight.arena.arms(arms) {
        walk_arm(room, within, least, parent, *arm);
    }
}
