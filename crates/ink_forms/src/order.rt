//! The order of work: the children of an expression, in the order in which they are worked.
//!
//! A receiver, a base or a written place is a path: a root with the fields that are read from it. A root that is a
//! variable or `self` is read late, after the arguments or the written value, and so are the fields; any other root is
//! worked early. So a path stands twice in a list of steps.
ghost use Rattle.std.specs.Prelude.{◌≡◌, ◌++◌, Bool, OnOk};
ghost use Rattle.ink_forms.specs.Order as order;
ghost use Rattle.ink_forms.specs.Views as view;

use crate::arena::Arena;
use crate::expr::{Argument, Arm, Expr, ExprId};
use std::alloc::AllocError;

/// What is worked of a child in one step.
#[derive(Clone, Copy)]
pub enum Part {
    /// What comes before the arguments or the written value.
    Early,
    /// What comes after them.
    Late,
    Whole,
}

/// A step of a node's work.
#[derive(Clone, Copy)]
pub struct Step {
    pub node: ExprId,
    pub part: Part,
}

/// Adds a step.
fn add(node: ExprId, part: Part, steps: &mut Vec<Step>) -> Result<(), AllocError>
    ensures { OnOk result (steps.new.items ≡ steps.old.items ++ order.step_of node part) }
{
    steps.push(Step { node, part })?;
    Ok(())
}

/// Adds the steps of a list of expressions.
fn add_all(numbers: &[ExprId], steps: &mut Vec<Step>) -> Result<(), AllocError>
    ensures { OnOk result (steps.new.items ≡ steps.old.items ++ order.steps numbers.now) }
{
    for number in numbers {
        add(*number, Part::Whole, steps)?;
    }
    Ok(())
}

/// Adds the steps of arguments.
fn add_arguments(arguments: &[Argument], steps: &mut Vec<Step>) -> Result<(), AllocError>
    ensures { OnOk result (steps.new.items ≡ steps.old.items ++ order.argument_steps arguments.now) }
{
    for argument in arguments {
        add(argument.value, Part::Whole, steps)?;
    }
    Ok(())
}

/// Adds the step of a guard.
fn add_guard(guard: Option<ExprId>, steps: &mut Vec<Step>) -> Result<(), AllocError>
    ensures { OnOk result (steps.new.items ≡ steps.old.items ++ order.guard_steps guard) }
{
    match guard {
        Some(guard) => add(guard, Part::Whole, steps),
        None => Ok(()),
    }
}

/// Adds the steps of arms.
fn add_arms(arms: &[Arm], steps: &mut Vec<Step>) -> Result<(), AllocError>
    ensures { OnOk result (steps.new.items ≡ steps.old.items ++ order.arm_steps arms.now) }
{
    for arm in arms {
        add_guard(arm.guard, steps)?;
        add(arm.value, Part::Whole, steps)?;
    }
    Ok(())
}

/// Adds the steps of a path and of what is worked between its early part and its late one.
fn add_around(path: ExprId, between: &[ExprId], steps: &mut Vec<Step>) -> Result<(), AllocError>
    ensures { OnOk result (steps.new.items ≡ steps.old.items ++ order.around_steps path between.now) }
{
    add(path, Part::Early, steps)?;
    add_all(between, steps)?;
    add(path, Part::Late, steps)
}

/// Adds the steps of a choice.
fn add_match(scrutinee: ExprId, arms: &[Arm], steps: &mut Vec<Step>) -> Result<(), AllocError>
    ensures { OnOk result (steps.new.items ≡ steps.old.items ++ order.match_steps scrutinee arms.now) }
{
    add(scrutinee, Part::Whole, steps)?;
    add_arms(arms, steps)
}

/// Adds the steps of a field: of its base early, and late too where the field is a call.
fn add_field(base: ExprId, is_call: bool, steps: &mut Vec<Step>) -> Result<(), AllocError>
    ensures { OnOk result (steps.new.items ≡ steps.old.items ++ order.field_steps is_call base) }
{
    add(base, Part::Early, steps)?;
    if is_call {
        return add(base, Part::Late, steps);
    }
    Ok(())
}

/// Adds the early steps of an expression, which are all steps of what is no path. Where the expression is a field,
/// `is_call` tells whether it calls a method.
#[tactic(auto, using(crate::proofs::Ordered::number_read, crate::proofs::Ordered::all_read, crate::proofs::Ordered::arguments_read, crate::proofs::Ordered::arms_read))]
pub fn early_steps(
    arena: &Arena,
    number: ExprId,
    is_call: bool,
    steps: &mut Vec<Step>,
) -> Result<(), AllocError>
    ensures { OnOk result (steps.new.items ≡ steps.old.items ++ (order.order is_call (view.term arena.now number)).early) }
{
    match arena.expr(number).expr {
        Expr::Field { base, .. } => add_field(base, is_call, steps),
        Expr::Set { place, value } => add_around(place, &[value], steps),
        Expr::Swap { place, value } => add_around(place, &[value], steps),
        Expr::Operate {
            receiver,
            argument,
            ..
        } => add_around(receiver, &[argument], steps),
        Expr::Call {
            receiver,
            arguments,
            ..
        } => add_around(receiver, arena.list(arguments), steps),
        Expr::New { arguments, .. } => add_arguments(arena.arguments(arguments), steps),
        Expr::NewOf { arguments, .. } => add_arguments(arena.arguments(arguments), steps),
        Expr::Match {
            scrutinee,
            arms,
            ..
        } => add_match(scrutinee, arena.arms(arms), steps),
        _ => add_plain(arena, number, steps),
    }
}

/// Adds the steps of an expression that has no path, no arms and no named arguments.
#[tactic(auto, using(crate::proofs::Ordered::number_read, crate::proofs::Ordered::all_read))]
fn add_plain(arena: &Arena, number: ExprId, steps: &mut Vec<Step>) -> Result<(), AllocError>
    requires { order.IsPlain (view.term arena.now number) }
    ensures { (c : Bool) → OnOk result (steps.new.items ≡ steps.old.items ++ (order.order c (view.term arena.now number)).early) }
{
    match arena.expr(number).expr {
        Expr::Block { statements, .. } => add_all(arena.list(statements), steps),
        Expr::Arr { items } => add_all(arena.list(items), steps),
        Expr::Fn { arguments, .. } => add_all(arena.list(arguments), steps),
        Expr::Static { arguments, .. } => add_all(arena.list(arguments), steps),
        Expr::Panic { arguments } => add_all(arena.list(arguments), steps),
        Expr::Borrow { operand, .. } => add(operand, Part::Whole, steps),
        Expr::Recover { operand } => add(operand, Part::Whole, steps),
        Expr::Let { value, .. } => add(value, Part::Whole, steps),
        Expr::TypedLet { value, .. } => add(value, Part::Whole, steps),
        Expr::Loop { body } => add(body, Part::Whole, steps),
        Expr::Return { value } => add(value, Part::Whole, steps),
        Expr::Drop { value } => add(value, Part::Whole, steps),
        Expr::Statement { value } => add(value, Part::Whole, steps),
        _ => Ok(()),
    }
}

/// Adds the late steps of an expression, which only the path of a field has: of its base. A variable and `self` are read
/// late themselves.
#[tactic(auto, using(crate::proofs::Ordered::number_read))]
pub fn late_steps(
    arena: &Arena,
    number: ExprId,
    is_call: bool,
    steps: &mut Vec<Step>,
) -> Result<(), AllocError>
    ensures { OnOk result (steps.new.items ≡ steps.old.items ++ (order.order is_call (view.term arena.now number)).late) }
{
    match arena.expr(number).expr {
        Expr::Field { base, .. } => {
            if is_call {
                return Ok(());
            }
            add(base, Part::Late, steps)
        }
        _ => Ok(()),
    }
}
