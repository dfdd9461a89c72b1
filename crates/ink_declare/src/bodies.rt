//! The names of expressions.
ghost use Rattle.std.specs.Prelude.{IfSome};
ghost use Rattle.ink_forms.specs.Views as view;

use crate::constructions::{constructed, constructed_of};
use crate::duplicates::NameList;
use crate::patterns::bind;
use crate::state::{Room, State, Within};
use crate::written::{type_named, written_names};
use ink_forms::{Arm, Binding, Children, Expr, ExprId, NameId};
use ink_names::Resolution;
use std::alloc::AllocError;

/// A variable, by the last declaration of its name.
fn variable(state: &mut State, number: ExprId, place: u32, name: NameId) {
    let found = match state.variables.find(name) {
        Some(declared) => Some(Resolution::Variable(declared)),
        None => None,
    };
    state.resolve(number, place, found);
}

/// `self`, where the method has one.
fn receiver(within: Within, state: &mut State, number: ExprId, place: u32) {
    let found = match within.receiver {
        Some(method) => Some(Resolution::SelfOf(method)),
        None => None,
    };
    state.resolve(number, place, found);
}

/// A method of the module.
fn function(room: &Room, state: &mut State, number: ExprId, place: u32, name: NameId) {
    let found = match room.known.function(name) {
        Some(method) => Some(Resolution::Method(method)),
        None => None,
    };
    state.resolve(number, place, found);
}

/// Declares what a `let` names.
fn declare_binding(state: &mut State, number: ExprId, binding: Binding) -> Result<(), AllocError> {
    match binding {
        Binding::Fixed(name) | Binding::Mutable(name) => {
            state.resolutions.put(number, Resolution::Variable(number));
            state.variables.declare(name, number)
        }
        Binding::Wildcard => Ok(()),
    }
}

/// The names of an expression. What it declares is in scope behind it, until the scope round it ends.
#[cycle(walk)]
pub(crate) fn walk(
    room: &Room,
    within: Within,
    state: &mut State,
    number: ExprId,
) -> Result<(), AllocError> {
    let node = room.arena.expr(number);
    match node.expr {
        Expr::Var { name } => {
            variable(state, number, node.start, name);
            Ok(())
        }
        Expr::SelfValue => {
            receiver(within, state, number, node.start);
            Ok(())
        }
        Expr::Let { binding, value } => {
            walk(room, within, state, value)?;
            declare_binding(state, number, binding)
        }
        Expr::TypedLet {
            binding,
            annotation,
            value,
        } => {
            written_names(room, within.owner, state, annotation);
            walk(room, within, state, value)?;
            declare_binding(state, number, binding)
        }
        Expr::Block { statements, .. } => walk_block(room, within, state, number, statements),
        Expr::Match {
            scrutinee,
            arms,
            ..
        } => {
            walk(room, within, state, scrutinee)?;
            walk_arms(room, within, state, number, arms)
        }
        _ => walk_named(room, within, state, number),
    }
}

/// The names of an expression that names something of the module.
#[cycle(walk)]
fn walk_named(
    room: &Room,
    within: Within,
    state: &mut State,
    number: ExprId,
) -> Result<(), AllocError> {
    let node = room.arena.expr(number);
    match node.expr {
        Expr::New { made, arguments } => {
            constructed(room, within.owner, state, number, node.start, made);
            walk_arguments(room, within, state, number, arguments)
        }
        Expr::NewOf {
            owner,
            name,
            arguments,
        } => {
            constructed_of(room, within.owner, state, number, owner, name);
            walk_arguments(room, within, state, number, arguments)
        }
        Expr::Fn { name, arguments } => {
            function(room, state, number, node.place, name);
            walk_all(room, within, state, number, arguments)
        }
        Expr::Static {
            owner,
            arguments,
            ..
        } => {
            let found = type_named(room.known, within.owner, state, owner);
            state.resolve(number, node.start, found);
            walk_all(room, within, state, number, arguments)
        }
        Expr::Panic { arguments } => {
            if !room.known.is_panic_imported {
                state.break_unknown(node.place);
            }
            walk_all(room, within, state, number, arguments)
        }
        _ => walk_lists(room, within, state, number),
    }
}

/// The names of an expression that has none itself.
#[cycle(walk)]
fn walk_lists(
    room: &Room,
    within: Within,
    state: &mut State,
    number: ExprId,
) -> Result<(), AllocError> {
    match room.arena.expr(number).expr {
        Expr::Arr { items } => walk_all(room, within, state, number, items),
        Expr::Call {
            receiver,
            arguments,
            ..
        } => {
            walk(room, within, state, receiver)?;
            walk_all(room, within, state, number, arguments)
        }
        Expr::Set { place, value } | Expr::Swap { place, value } => {
            walk(room, within, state, place)?;
            walk(room, within, state, value)
        }
        Expr::Operate {
            receiver,
            argument,
            ..
        } => {
            walk(room, within, state, receiver)?;
            walk(room, within, state, argument)
        }
        _ => walk_child(room, within, state, number),
    }
}

/// The names of an expression with one child or none.
#[cycle(walk)]
fn walk_child(
    room: &Room,
    within: Within,
    state: &mut State,
    number: ExprId,
) -> Result<(), AllocError> {
    match room.arena.expr(number).expr {
        Expr::Field { base, .. } => walk(room, within, state, base),
        Expr::Borrow { operand, .. } => walk(room, within, state, operand),
        Expr::Recover { operand } => walk(room, within, state, operand),
        Expr::Loop { body } => walk(room, within, state, body),
        Expr::Return { value } => walk(room, within, state, value),
        Expr::Drop { value } => walk(room, within, state, value),
        Expr::Statement { value } => walk(room, within, state, value),
        _ => Ok(()),
    }
}

/// The names of some expressions.
#[cycle(walk)]
fn walk_all(
    room: &Room,
    within: Within,
    state: &mut State,
    parent: ExprId,
    children: Children,
) -> Result<(), AllocError>
    requires { view.AreBefore room.now.arena.now parent children }
{
    for child in room.arena.list(children) {
        walk(room, within, state, *child)?;
    }
    Ok(())
}

/// The names of arguments, each of which may name another field.
#[cycle(walk)]
fn walk_arguments(
    room: &Room,
    within: Within,
    state: &mut State,
    parent: ExprId,
    arguments: Children,
) -> Result<(), AllocError>
    requires { view.AreArgumentsBefore room.now.arena.now parent arguments }
{
    let mut list = NameList::new(room.alloc);
    for argument in room.arena.arguments(arguments) {
        if let Some(label) = argument.label {
            list.add(&mut state.least, label.name, label.place)?;
        }
        walk(room, within, state, argument.value)?;
    }
    Ok(())
}

/// The names of a block, at whose end its variables go out of scope.
#[cycle(walk)]
fn walk_block(
    room: &Room,
    within: Within,
    state: &mut State,
    parent: ExprId,
    statements: Children,
) -> Result<(), AllocError>
    requires { view.AreBefore room.now.arena.now parent statements }
{
    let depth = state.variables.depth();
    walk_all(room, within, state, parent, statements)?;
    state.variables.end(depth);
    Ok(())
}

/// The names of a guard.
#[cycle(walk)]
fn walk_guard(
    room: &Room,
    within: Within,
    state: &mut State,
    parent: ExprId,
    guard: Option<ExprId>,
) -> Result<(), AllocError>
    requires { IfSome guard (view.IsBefore parent) }
{
    match guard {
        Some(guard) => walk(room, within, state, guard),
        None => Ok(()),
    }
}

/// The names of an arm, in whose guard and value those of its pattern are in scope.
#[cycle(walk)]
fn walk_arm(
    room: &Room,
    within: Within,
    state: &mut State,
    parent: ExprId,
    arm: Arm,
) -> Result<(), AllocError>
    requires { view.IsArmBefore parent arm }
{
    let depth = state.variables.depth();
    bind(room, state, depth, arm.pattern)?;
    walk_guard(room, within, state, parent, arm.guard)?;
    walk(room, within, state, arm.value)?;
    state.variables.end(depth);
    Ok(())
}

/// The names of arms.
#[cycle(walk)]
fn walk_arms(
    room: &Room,
    within: Within,
    state: &mut State,
    parent: ExprId,
    arms: Children,
) -> Result<(), AllocError>
    requires { view.AreArmsBefore room.now.arena.now parent arms }
{
    for arm in room.arena.arms(arms) {
        walk_arm(room, within, state, parent, *arm)?;
    }
    Ok(())
}
