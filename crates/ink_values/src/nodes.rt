//! Nodes over others.
ghost use Rattle.std.specs.Prelude.{◌≡◌, ◌≤◌, ◌<◌, None, IfOk};
ghost use Rattle.ink_forms.specs.Views as view;

use ink_forms::{Arena, Arm, Expr, ExprId, Literal, PatternId};
use std::alloc::AllocError;

/// Makes an expression that starts at one byte and stands at another.
pub(crate) fn push_at(
    arena: &mut Arena,
    start: u32,
    place: u32,
    expr: Expr,
) -> Result<ExprId, AllocError>
    requires { view.ExprStands arena.old (view.count arena.old) expr }
    ensures below { IfOk result (λ n. n < view.count arena.new) }
    ensures grows { view.count arena.old ≤ view.count arena.new }
{
    let number = arena.push_expr(start, place, expr)?;
    Ok(number)
}

/// Makes an expression that starts and stands at this byte.
pub(crate) fn push_here(arena: &mut Arena, here: u32, expr: Expr) -> Result<ExprId, AllocError>
    requires { view.ExprStands arena.old (view.count arena.old) expr }
    ensures below { IfOk result (λ n. n < view.count arena.new) }
    ensures grows { view.count arena.old ≤ view.count arena.new }
{
    push_at(arena, here, here, expr)
}

/// Makes a literal.
pub(crate) fn push_literal(
    arena: &mut Arena,
    here: u32,
    literal: Literal,
) -> Result<ExprId, AllocError>
    ensures below { IfOk result (λ n. n < view.count arena.new) }
    ensures grows { view.count arena.old ≤ view.count arena.new }
{
    push_here(arena, here, Expr::Lit { literal })
}

/// An arm without a guard.
pub(crate) fn plain_arm(pattern: PatternId, value: ExprId) -> Arm
    ensures pattern { result.pattern ≡ pattern }
    ensures guard { result.guard ≡ None }
    ensures value { result.value ≡ value }
{
    Arm {
        pattern,
        guard: None,
        value,
    }
}
