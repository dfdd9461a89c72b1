//! Values over one value, over two, or over none.
ghost use Rattle.std.specs.Prelude.{◌≤◌, ◌<◌, IfOk, IfSome};
ghost use Rattle.ink_forms.specs.Views as view;

use crate::choices::{push_error, push_try};
use crate::nodes::{push_at, push_here, push_literal};
use crate::value_form::{Alone, Both, Over};
use ink_forms::{Arena, Binding, Expr, ExprId, Literal, Operator, Selector, WrittenTypeId};
use ink_lexicon::{Surface, try_name};
use std::alloc::AllocError;

/// Makes a value without others in it.
pub(crate) fn push_alone(arena: &mut Arena, start: u32, alone: Alone) -> Result<ExprId, AllocError>
    ensures below { IfOk result (λ n. n < view.count arena.new) }
    ensures grows { view.count arena.old ≤ view.count arena.new }
{
    match alone {
        Alone::Lit(literal) => push_literal(arena, start, literal),
        Alone::Var(name) => push_here(arena, start, Expr::Var { name }),
        Alone::SelfValue => push_here(arena, start, Expr::SelfValue),
        Alone::SelfField(name) => {
            let base = push_here(arena, start, Expr::SelfValue)?;
            let selector = Selector::Field(name);
            push_here(arena, start, Expr::Field { selector, base })
        }
        Alone::Break => push_here(arena, start, Expr::Break),
        Alone::Next => push_here(arena, start, Expr::Next),
        Alone::ReturnNil => {
            let value = push_literal(arena, start, Literal::Nil)?;
            push_here(arena, start, Expr::Return { value })
        }
    }
}

/// Makes what is made of one value.
pub(crate) fn push_over(
    surface: &Surface,
    arena: &mut Arena,
    start: u32,
    over: Over,
    value: ExprId,
) -> Result<ExprId, AllocError>
    requires { value < view.count arena.old }
    ensures below { IfOk result (λ n. n < view.count arena.new) }
    ensures grows { view.count arena.old ≤ view.count arena.new }
{
    let base = value;
    let operand = value;
    match over {
        Over::Statement => push_here(arena, start, Expr::Statement { value }),
        Over::GivenUp => push_given_up(arena, start, value),
        Over::Loop => push_here(arena, start, Expr::Loop { body: value }),
        Over::Return => push_here(arena, start, Expr::Return { value }),
        Over::Throw => push_error(arena, start, value),
        Over::Borrow(kind) => push_here(arena, start, Expr::Borrow { kind, operand }),
        Over::Try => push_try(arena, start, try_name(surface), value),
        Over::Recover => push_here(arena, start, Expr::Recover { operand }),
        Over::Named { place, name } => {
            let selector = Selector::Named(name);
            push_at(arena, start, place, Expr::Field { selector, base })
        }
        Over::Part { place, part } => {
            let selector = Selector::Part(part);
            push_at(arena, start, place, Expr::Field { selector, base })
        }
    }
}

/// Makes what is made of two values.
pub(crate) fn push_both(
    arena: &mut Arena,
    start: u32,
    place: u32,
    both: Both,
    first: ExprId,
    second: ExprId,
) -> Result<ExprId, AllocError>
    requires first { first < view.count arena.old }
    requires second { second < view.count arena.old }
    ensures below { IfOk result (λ n. n < view.count arena.new) }
    ensures grows { view.count arena.old ≤ view.count arena.new }
{
    let made = match both {
        Both::Set => Expr::Set {
            place: first,
            value: second,
        },
        Both::Swap => Expr::Swap {
            place: first,
            value: second,
        },
        Both::Operate(operator) => Expr::Operate {
            operator,
            receiver: first,
            argument: second,
        },
    };
    push_at(arena, start, place, made)
}

/// Makes a write of what an operator gives for the old value. Both copies of the place are there.
pub(crate) fn push_update(
    arena: &mut Arena,
    start: u32,
    place: u32,
    operator: Operator,
    updated: ExprId,
    receiver: ExprId,
    argument: ExprId,
) -> Result<ExprId, AllocError>
    requires updated { updated < view.count arena.old }
    requires receiver { receiver < view.count arena.old }
    requires argument { argument < view.count arena.old }
    ensures below { IfOk result (λ n. n < view.count arena.new) }
    ensures grows { view.count arena.old ≤ view.count arena.new }
{
    let value = push_both(
        arena,
        place,
        place,
        Both::Operate(operator),
        receiver,
        argument,
    )?;
    push_both(arena, start, place, Both::Set, updated, value)
}

/// Makes a variable, with its written type if it has one.
pub(crate) fn push_let(
    arena: &mut Arena,
    start: u32,
    binding: Binding,
    annotation: Option<WrittenTypeId>,
    value: ExprId,
) -> Result<ExprId, AllocError>
    requires annotation { IfSome annotation (λ n. n < view.count arena.old) }
    requires value { value < view.count arena.old }
    ensures below { IfOk result (λ n. n < view.count arena.new) }
    ensures grows { view.count arena.old ≤ view.count arena.new }
{
    match annotation {
        Some(annotation) => push_here(
            arena,
            start,
            Expr::TypedLet {
                binding,
                annotation,
                value,
            },
        ),
        None => push_here(arena, start, Expr::Let { binding, value }),
    }
}

/// Makes a statement whose value is given up.
fn push_given_up(arena: &mut Arena, start: u32, value: ExprId) -> Result<ExprId, AllocError>
    requires { value < view.count arena.old }
    ensures below { IfOk result (λ n. n < view.count arena.new) }
    ensures grows { view.count arena.old ≤ view.count arena.new }
{
    let value = push_here(arena, start, Expr::Drop { value })?;
    push_here(arena, start, Expr::Statement { value })
}

/// Makes one text of two.
pub(crate) fn push_joined(
    arena: &mut Arena,
    quote: u32,
    before: ExprId,
    item: ExprId,
) -> Result<ExprId, AllocError>
    requires before { before < view.count arena.old }
    requires item { item < view.count arena.old }
    ensures below { IfOk result (λ n. n < view.count arena.new) }
    ensures grows { view.count arena.old ≤ view.count arena.new }
{
    let add = Both::Operate(Operator::Add);
    push_both(arena, quote, quote, add, before, item)
}
