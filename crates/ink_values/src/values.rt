//! The walk along the tree: the values of nodes, those below them first.
ghost use Rattle.std.specs.Prelude.{◌≤◌, ◌<◌, All, IfOk, IfSome};
ghost use Rattle.ink_forms.specs.Views as view;

use crate::choices::{push_decision, push_truth};
use crate::lists::{push_block, push_call, push_listed, push_match, push_new};
use crate::nodes::{push_here, push_literal};
use crate::over::{push_alone, push_both, push_joined, push_let, push_over, push_update};
use crate::parts::{ArmParts, Item, Piece};
use crate::value_form::{Composed, Decision, Side, Update, ValueForm, form_of_value};
use ink_forms::{Arena, Arm, Expr, ExprId, Literal};
use ink_lexicon::{Surface, is_written, start_of, to_string_name};
use ink_patterns::{DEEPEST, deeper, optional_type, pattern};
use std::alloc::AllocError;

/// The value of a node, which may have so many values in one another. It may be given up, if the node is a statement or a
/// block with one at its end.
#[cycle(values)]
pub fn value(
    surface: &Surface,
    arena: &mut Arena,
    depth: u32,
    is_given_up: bool,
    number: u32,
) -> Result<ExprId, AllocError>
    ensures below { IfOk result (λ n. n < view.count arena.new) }
    ensures grows { view.count arena.old ≤ view.count arena.new }
{
    let left = deeper(depth)?;
    let start = start_of(surface.module, number);
    match form_of_value(surface, is_given_up, number)? {
        ValueForm::Alone(alone) => push_alone(arena, start, alone),
        ValueForm::Over { over, operand } => {
            let operand = value(surface, arena, left, operand.is_given_up, operand.node)?;
            push_over(surface, arena, start, over, operand)
        }
        ValueForm::Both(pair) => {
            let first = value(surface, arena, left, false, pair.first)?;
            let second = value(surface, arena, left, false, pair.second)?;
            push_both(arena, start, pair.place, pair.both, first, second)
        }
        ValueForm::Update(update) => updated(surface, arena, left, start, update),
        ValueForm::Let(bound) => {
            let annotation = optional_type(surface, arena, bound.annotation)?;
            let value = value(surface, arena, left, false, bound.value)?;
            push_let(arena, start, bound.binding, annotation, value)
        }
        ValueForm::Decide(decision) => decided(surface, arena, left, start, decision),
        ValueForm::Composed(form) => composed(surface, arena, left, start, form),
    }
}

/// A value with a list in it.
#[cycle(values)]
fn composed(
    surface: &Surface,
    arena: &mut Arena,
    depth: u32,
    start: u32,
    form: Composed,
) -> Result<ExprId, AllocError>
    ensures below { IfOk result (λ n. n < view.count arena.new) }
    ensures grows { view.count arena.old ≤ view.count arena.new }
{
    match form {
        Composed::Listed(listed, items) => {
            let numbers = values(surface, arena, depth, &items)?;
            push_listed(arena, start, listed, &numbers)
        }
        Composed::New(constructed, arguments) => {
            let numbers = values(surface, arena, depth, &arguments.values)?;
            push_new(surface, arena, start, constructed, &arguments, &numbers)
        }
        Composed::Call(called, items) => {
            let receiver = value(surface, arena, depth, false, called.receiver)?;
            let numbers = values(surface, arena, depth, &items)?;
            push_call(arena, start, called.place, called.name, receiver, &numbers)
        }
        Composed::Match { scrutinee, arms } => {
            let scrutinee = value(surface, arena, depth, false, scrutinee)?;
            let made = arms_made(surface, arena, depth, &arms)?;
            push_match(arena, start, scrutinee, &made)
        }
        Composed::Block { end, statements } => {
            let numbers = values(surface, arena, depth, &statements)?;
            push_block(arena, start, end, &numbers)
        }
        Composed::Text { first, rest } => text(surface, arena, depth, start, first, &rest),
    }
}

/// The values of these nodes, in their order.
#[cycle(values)]
fn values(
    surface: &Surface,
    arena: &mut Arena,
    depth: u32,
    items: &[Item],
) -> Result<Vec<ExprId>, AllocError>
    ensures below { IfOk result (λ numbers. All (view.IsBefore (view.count arena.new)) numbers.items) }
    ensures grows { view.count arena.old ≤ view.count arena.new }
{
    let mut numbers = Vec::new(surface.alloc);
    for item in items {
        let number = value(surface, arena, depth, item.is_given_up, item.node)?;
        numbers.push(number)?;
    }
    Ok(numbers)
}

/// The guard of an arm, where one is written.
#[cycle(values)]
fn guard(
    surface: &Surface,
    arena: &mut Arena,
    depth: u32,
    number: u32,
) -> Result<Option<ExprId>, AllocError>
    ensures below { IfOk result (λ guard. IfSome guard (λ n. n < view.count arena.new)) }
    ensures grows { view.count arena.old ≤ view.count arena.new }
{
    if is_written(surface.module, number) {
        let guard = value(surface, arena, depth, false, number)?;
        Ok(Some(guard))
    } else {
        Ok(None)
    }
}

/// The arms of these nodes, in their order.
#[cycle(values)]
fn arms_made(
    surface: &Surface,
    arena: &mut Arena,
    depth: u32,
    parts: &[ArmParts],
) -> Result<Vec<Arm>, AllocError>
    ensures below { IfOk result (λ made. All (view.IsArmBefore (view.count arena.new)) made.items) }
    ensures grows { view.count arena.old ≤ view.count arena.new }
{
    let mut made = Vec::new(surface.alloc);
    for part in parts {
        let pattern = pattern(surface, arena, DEEPEST, part.pattern)?;
        let guard = guard(surface, arena, depth, part.guard)?;
        let value = value(surface, arena, depth, false, part.value)?;
        made.push(Arm {
            pattern,
            guard,
            value,
        })?;
    }
    Ok(made)
}

/// A text and what is joined to it, from the left. All that the table adds stands at the quote.
#[cycle(values)]
fn text(
    surface: &Surface,
    arena: &mut Arena,
    depth: u32,
    quote: u32,
    first: Literal,
    rest: &[Piece],
) -> Result<ExprId, AllocError>
    ensures below { IfOk result (λ n. n < view.count arena.new) }
    ensures grows { view.count arena.old ≤ view.count arena.new }
{
    let mut joined = push_literal(arena, quote, first)?;
    for item in rest {
        let argument = piece(surface, arena, depth, quote, *item)?;
        joined = push_joined(arena, quote, joined, argument)?;
    }
    Ok(joined)
}

/// An item of a text: a part as it is, and an embedded expression asked for its text.
#[cycle(values)]
fn piece(
    surface: &Surface,
    arena: &mut Arena,
    depth: u32,
    quote: u32,
    item: Piece,
) -> Result<ExprId, AllocError>
    ensures below { IfOk result (λ n. n < view.count arena.new) }
    ensures grows { view.count arena.old ≤ view.count arena.new }
{
    match item {
        Piece::Part(literal) => push_literal(arena, quote, literal),
        Piece::Embedded(number) => {
            let receiver = value(surface, arena, depth, false, number)?;
            push_call(arena, quote, quote, to_string_name(surface), receiver, &[])
        }
    }
}

/// A write of what an operator gives for the old value. The place is made twice.
#[cycle(values)]
fn updated(
    surface: &Surface,
    arena: &mut Arena,
    depth: u32,
    start: u32,
    update: Update,
) -> Result<ExprId, AllocError>
    ensures below { IfOk result (λ n. n < view.count arena.new) }
    ensures grows { view.count arena.old ≤ view.count arena.new }
{
    let place = value(surface, arena, depth, false, update.updated)?;
    let receiver = value(surface, arena, depth, false, update.updated)?;
    let argument = value(surface, arena, depth, false, update.value)?;
    push_update(
        arena,
        start,
        update.place,
        update.operator,
        place,
        receiver,
        argument,
    )
}

/// One side of a choice. What the table adds stands at this byte.
#[cycle(values)]
fn side_value(
    surface: &Surface,
    arena: &mut Arena,
    depth: u32,
    here: u32,
    side: Side,
) -> Result<ExprId, AllocError>
    ensures below { IfOk result (λ n. n < view.count arena.new) }
    ensures grows { view.count arena.old ≤ view.count arena.new }
{
    match side {
        Side::Value(number) => value(surface, arena, depth, false, number),
        Side::GivenUp(number) => {
            let value = value(surface, arena, depth, false, number)?;
            push_here(arena, here, Expr::Drop { value })
        }
        Side::Literal(literal) => push_literal(arena, here, literal),
        Side::Break => push_here(arena, here, Expr::Break),
    }
}

/// A choice between true and false.
#[cycle(values)]
fn decided(
    surface: &Surface,
    arena: &mut Arena,
    depth: u32,
    start: u32,
    decision: Decision,
) -> Result<ExprId, AllocError>
    ensures below { IfOk result (λ n. n < view.count arena.new) }
    ensures grows { view.count arena.old ≤ view.count arena.new }
{
    let here = decision.place;
    let scrutinee = value(surface, arena, depth, false, decision.condition)?;
    let yes = push_truth(arena, here, true)?;
    let on_true = side_value(surface, arena, depth, here, decision.on_true)?;
    let no = push_truth(arena, here, false)?;
    let on_false = side_value(surface, arena, depth, here, decision.on_false)?;
    push_decision(
        arena,
        start,
        here,
        decision.choice,
        scrutinee,
        (yes, on_true),
        (no, on_false),
    )
}
