//! Choices that the table makes of other forms: `and`, `or`, `if`, `while`, `try` and `throw`.
ghost use Rattle.std.specs.Prelude.{◌≤◌, ◌<◌, IfOk};
ghost use Rattle.ink_forms.specs.Views as view;

use crate::nodes::{plain_arm, push_at, push_here};
use ink_forms::{Arena, Argument, Choice, Expr, ExprId, Literal, Made, NameId, Pattern, PatternId};
use std::alloc::AllocError;

/// The pattern of true or false.
pub(crate) fn push_truth(arena: &mut Arena, here: u32, truth: bool) -> Result<PatternId, AllocError>
    ensures below { IfOk result (λ n. n < view.count arena.new) }
    ensures grows { view.count arena.old ≤ view.count arena.new }
{
    let literal = Literal::Bool(truth);
    let number = arena.push_pattern(here, here, Pattern::Lit { literal })?;
    Ok(number)
}

/// Makes a choice of two arms.
pub(crate) fn push_choice(
    arena: &mut Arena,
    start: u32,
    place: u32,
    choice: Choice,
    scrutinee: ExprId,
    first: (PatternId, ExprId),
    second: (PatternId, ExprId),
) -> Result<ExprId, AllocError>
    requires scrutinee { scrutinee < view.count arena.old }
    requires first_pattern { first.0 < view.count arena.old }
    requires first_value { first.1 < view.count arena.old }
    requires second_pattern { second.0 < view.count arena.old }
    requires second_value { second.1 < view.count arena.old }
    ensures below { IfOk result (λ n. n < view.count arena.new) }
    ensures grows { view.count arena.old ≤ view.count arena.new }
{
    let first = plain_arm(first.0, first.1);
    let second = plain_arm(second.0, second.1);
    let arms = arena.add_arms(&[first, second])?;
    let made = Expr::Match {
        choice,
        scrutinee,
        arms,
    };
    push_at(arena, start, place, made)
}

/// Makes a choice between true and false. That of a `while` stands in a loop.
pub(crate) fn push_decision(
    arena: &mut Arena,
    start: u32,
    place: u32,
    choice: Choice,
    condition: ExprId,
    on_true: (PatternId, ExprId),
    on_false: (PatternId, ExprId),
) -> Result<ExprId, AllocError>
    requires condition { condition < view.count arena.old }
    requires true_pattern { on_true.0 < view.count arena.old }
    requires true_value { on_true.1 < view.count arena.old }
    requires false_pattern { on_false.0 < view.count arena.old }
    requires false_value { on_false.1 < view.count arena.old }
    ensures below { IfOk result (λ n. n < view.count arena.new) }
    ensures grows { view.count arena.old ≤ view.count arena.new }
{
    let body = push_choice(arena, start, place, choice, condition, on_true, on_false)?;
    match choice {
        Choice::While => push_here(arena, start, Expr::Loop { body }),
        _ => Ok(body),
    }
}

/// Makes the return of the new object of an error.
pub(crate) fn push_error(arena: &mut Arena, here: u32, value: ExprId) -> Result<ExprId, AllocError>
    requires { value < view.count arena.old }
    ensures below { IfOk result (λ n. n < view.count arena.new) }
    ensures grows { view.count arena.old ≤ view.count arena.new }
{
    let arguments = arena.add_arguments(&[Argument { label: None, value }])?;
    let made = Made::Error;
    let value = push_here(arena, here, Expr::New { made, arguments })?;
    push_here(arena, here, Expr::Return { value })
}

/// The pattern of a result that binds what is in it.
fn push_result(
    arena: &mut Arena,
    here: u32,
    made: Made,
    name: NameId,
) -> Result<PatternId, AllocError>
    ensures below { IfOk result (λ n. n < view.count arena.new) }
    ensures grows { view.count arena.old ≤ view.count arena.new }
{
    let is_mutable = false;
    let bound = arena.push_pattern(here, here, Pattern::Name { is_mutable, name })?;
    let parts = arena.add_list(&[bound])?;
    let number = arena.push_pattern(here, here, Pattern::Constructor { made, parts })?;
    Ok(number)
}

/// Makes the choice of `try`, by the result that it tries. Its variable has this name.
pub(crate) fn push_try(
    arena: &mut Arena,
    here: u32,
    name: NameId,
    tried: ExprId,
) -> Result<ExprId, AllocError>
    requires { tried < view.count arena.old }
    ensures below { IfOk result (λ n. n < view.count arena.new) }
    ensures grows { view.count arena.old ≤ view.count arena.new }
{
    let good = push_result(arena, here, Made::Ok, name)?;
    let found = push_here(arena, here, Expr::Var { name })?;
    let bad = push_result(arena, here, Made::Error, name)?;
    let error = push_here(arena, here, Expr::Var { name })?;
    let returned = push_error(arena, here, error)?;
    push_choice(
        arena,
        here,
        here,
        Choice::Try,
        tried,
        (good, found),
        (bad, returned),
    )
}
