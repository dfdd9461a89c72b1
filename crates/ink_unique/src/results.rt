//! Rules on what comes out of a `recover`: its result, and jumps.
ghost use Rattle.std.specs.Prelude.{◌<◌, IfSome};
ghost use Rattle.ink_forms.specs.Views as view;

use crate::room::{Room, Within};
use ink_base::Rule;
use ink_forms::{Arena, Children, Expr, ExprId};
use ink_names::Least;
use ink_types::{Term, TypeId, Types};

/// Whether a `recover` may have an operand of this type: an owned one, but not that of a type parameter, or one that may
/// be sent. Never is neither.
fn is_recoverable(types: &Types, of: TypeId) -> bool {
    match types.term(of) {
        Term::Of { .. } => !types.is_never(of),
        Term::Uni(_) => true,
        Term::Parameter(_) | Term::Ref(_) | Term::Mut(_) => false,
    }
}

/// The last of a list that stands before a number, if it isn't empty.
fn last_of(arena: &Arena, parent: ExprId, children: Children) -> Option<ExprId>
    requires { view.AreBefore arena.now parent children }
    ensures { IfSome result (λ last. last < parent) }
{
    let list = arena.list(children);
    if list.is_empty() {
        return None;
    }
    Some(list[list.len() - 1])
}

/// What gives an expression its value, where that is another one: the last of a block, and what a statement is of.
fn given_by(arena: &Arena, number: ExprId) -> Option<ExprId>
    ensures { IfSome result (λ inner. inner < number) }
{
    match arena.expr(number).expr {
        Expr::Statement { value } => Some(value),
        Expr::Block { statements, .. } => last_of(arena, number, statements),
        _ => None,
    }
}

/// The expression within blocks that gives their value.
fn innermost(arena: &Arena, number: ExprId) -> ExprId {
    let mut end = number;
    while let Some(inner) = given_by(arena, end) {
        end = inner;
    }
    end
}

/// What a `recover` gives was owned, unique, or may be sent.
pub(crate) fn judge_result(room: Room, least: &mut Least, operand: ExprId) {
    let Some(of) = room.sight.typed.type_of(operand) else {
        return;
    };
    if !is_recoverable(room.sight.types, of) {
        let given = innermost(room.sight.arena, operand);
        least.break_at(Rule::RecoverResult, room.sight.arena.expr(given).start);
    }
}

/// No `return`, `throw` or `try` leaves a `recover`.
pub(crate) fn judge_return(within: Within, least: &mut Least, start: u32) {
    if within.recover.is_some() {
        least.break_at(Rule::JumpOutOfRecover, start);
    }
}

/// A `break` or `next` in a `recover` is one of a loop in it.
pub(crate) fn judge_jump(within: Within, least: &mut Least, start: u32) {
    if within.recover.is_some() && !within.is_in_loop {
        least.break_at(Rule::JumpOutOfRecover, start);
    }
}
