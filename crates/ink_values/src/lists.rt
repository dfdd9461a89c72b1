//! Values over a list.
ghost use Rattle.std.specs.Prelude.{ℕ, ◌≤◌, ◌<◌, All, IfOk};
ghost use Rattle.ink_forms.specs.Views as view;

use crate::nodes::{push_at, push_here};
use crate::parts::Arguments;
use crate::value_form::{Constructed, Listed};
use ink_forms::{Arena, Argument, Arm, Choice, Expr, ExprId, Identifier, NameId};
use ink_lexicon::Surface;
use std::alloc::AllocError;

/// Makes what is made of a list of values.
pub(crate) fn push_listed(
    arena: &mut Arena,
    start: u32,
    listed: Listed,
    numbers: &[ExprId],
) -> Result<ExprId, AllocError>
    requires { All (view.IsBefore (view.count arena.old)) numbers.now }
    ensures below { IfOk result (λ n. n < view.count arena.new) }
    ensures grows { view.count arena.old ≤ view.count arena.new }
{
    let list = arena.add_list(numbers)?;
    match listed {
        Listed::Arr => push_here(arena, start, Expr::Arr { items: list }),
        Listed::Panic => push_here(arena, start, Expr::Panic { arguments: list }),
        Listed::Fn(name) => {
            let arguments = list;
            push_here(arena, start, Expr::Fn { name, arguments })
        }
        Listed::Static { place, owner, name } => {
            let arguments = list;
            let call = Expr::Static {
                owner,
                name,
                arguments,
            };
            push_at(arena, start, place, call)
        }
    }
}

/// The arguments of these values, with the fields that they are for.
fn labelled(
    surface: &Surface,
    labels: &[Option<Identifier>],
    numbers: &[ExprId],
) -> Result<Vec<Argument>, AllocError>
    ensures { IfOk result (λ made. (n : ℕ) → All (view.IsBefore n) numbers.now → All (view.IsArgumentBefore n) made.items) }
{
    let mut made = Vec::new(surface.alloc);
    for (index, value) in numbers.iter().enumerate() {
        let label = match labels.get(index) {
            Some(label) => *label,
            None => None,
        };
        made.push(Argument {
            label,
            value: *value,
        })?;
    }
    Ok(made)
}

/// Makes a new object over the values of these arguments.
pub(crate) fn push_new(
    surface: &Surface,
    arena: &mut Arena,
    start: u32,
    constructed: Constructed,
    arguments: &Arguments,
    numbers: &[ExprId],
) -> Result<ExprId, AllocError>
    requires { All (view.IsBefore (view.count arena.old)) numbers.now }
    ensures below { IfOk result (λ n. n < view.count arena.new) }
    ensures grows { view.count arena.old ≤ view.count arena.new }
{
    let made = labelled(surface, &arguments.labels, numbers)?;
    let arguments = arena.add_arguments(&made)?;
    match constructed {
        Constructed::Plain(made) => push_here(arena, start, Expr::New { made, arguments }),
        Constructed::Of { owner, name } => {
            let Identifier { name, place } = name;
            let made = Expr::NewOf {
                owner,
                name,
                arguments,
            };
            push_at(arena, start, place, made)
        }
    }
}

/// Makes a call of a method of a value.
pub(crate) fn push_call(
    arena: &mut Arena,
    start: u32,
    place: u32,
    name: NameId,
    receiver: ExprId,
    numbers: &[ExprId],
) -> Result<ExprId, AllocError>
    requires receiver { receiver < view.count arena.old }
    requires arguments { All (view.IsBefore (view.count arena.old)) numbers.now }
    ensures below { IfOk result (λ n. n < view.count arena.new) }
    ensures grows { view.count arena.old ≤ view.count arena.new }
{
    let arguments = arena.add_list(numbers)?;
    let call = Expr::Call {
        name,
        receiver,
        arguments,
    };
    push_at(arena, start, place, call)
}

/// Makes a block of statements.
pub(crate) fn push_block(
    arena: &mut Arena,
    start: u32,
    end: u32,
    numbers: &[ExprId],
) -> Result<ExprId, AllocError>
    requires { All (view.IsBefore (view.count arena.old)) numbers.now }
    ensures below { IfOk result (λ n. n < view.count arena.new) }
    ensures grows { view.count arena.old ≤ view.count arena.new }
{
    let statements = arena.add_list(numbers)?;
    push_here(arena, start, Expr::Block { end, statements })
}

/// Makes a `match`.
pub(crate) fn push_match(
    arena: &mut Arena,
    start: u32,
    scrutinee: ExprId,
    made: &[Arm],
) -> Result<ExprId, AllocError>
    requires scrutinee { scrutinee < view.count arena.old }
    requires arms { All (view.IsArmBefore (view.count arena.old)) made.now }
    ensures below { IfOk result (λ n. n < view.count arena.new) }
    ensures grows { view.count arena.old ≤ view.count arena.new }
{
    let arms = arena.add_arms(made)?;
    let choice = Choice::Match;
    let chosen = Expr::Match {
        choice,
        scrutinee,
        arms,
    };
    push_here(arena, start, chosen)
}
