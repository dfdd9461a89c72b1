//! The exits of expressions and methods.
ghost use Rattle.std.specs.Prelude.{◌≡◌, OnOk, IfSome};
ghost use Rattle.ink_exits.specs.Exits as spec;
ghost use Rattle.ink_exits.specs.Scopes as scopes;
ghost use Rattle.ink_forms.specs.Views as view;

use crate::exits::Exits;
use crate::scope::{behind, bind, declare, declare_self};
use ink_forms::{Arena, Arm, Children, Expr};
use std::alloc::{AllocError, Global};

/// Adds the exits of an expression with these variables in scope, of which the first `base` stood before the loop.
#[cycle(walk)]
fn walk(
    arena: &Arena,
    number: u32,
    base: usize,
    scope: &mut Vec<u32>,
    exits: &mut Exits,
) -> Result<(), AllocError>
    ensures found { OnOk result (exits.new ≡ spec.exits base scope.old.items (view.term arena.now number) exits.old) }
    ensures scope { OnOk result (scope.new.items ≡ scope.old.items) }
{
    match arena.expr(number).expr {
        Expr::Loop { body } => walk(arena, body, scope.len(), scope, exits),
        Expr::Break => exits.put(number, behind(scope, base)),
        Expr::Next => exits.put(number, behind(scope, base)),
        Expr::Return { value } => {
            walk(arena, value, base, scope, exits)?;
            exits.put(number, scope)
        }
        Expr::Block { statements, .. } => {
            walk_block(arena, number, base, statements, scope, exits)
        }
        Expr::Match {
            scrutinee,
            arms,
            ..
        } => {
            walk(arena, scrutinee, base, scope, exits)?;
            walk_arms(arena, number, base, arms, scope, exits)
        }
        _ => walk_lists(arena, number, base, scope, exits),
    }
}

/// Adds the exits of an expression with a list.
#[cycle(walk)]
fn walk_lists(
    arena: &Arena,
    number: u32,
    base: usize,
    scope: &mut Vec<u32>,
    exits: &mut Exits,
) -> Result<(), AllocError>
    requires { spec.HasNoExit (view.term arena.now number) }
    ensures found { OnOk result (exits.new ≡ spec.exits base scope.old.items (view.term arena.now number) exits.old) }
    ensures scope { OnOk result (scope.new.items ≡ scope.old.items) }
{
    match arena.expr(number).expr {
        Expr::New { arguments, .. } => {
            walk_arguments(arena, number, base, arguments, scope, exits)
        }
        Expr::NewOf { arguments, .. } => {
            walk_arguments(arena, number, base, arguments, scope, exits)
        }
        Expr::Arr { items } => walk_all(arena, number, base, items, scope, exits),
        Expr::Call {
            receiver,
            arguments,
            ..
        } => {
            walk(arena, receiver, base, scope, exits)?;
            walk_all(arena, number, base, arguments, scope, exits)
        }
        Expr::Fn { arguments, .. } => walk_all(arena, number, base, arguments, scope, exits),
        Expr::Static { arguments, .. } => walk_all(arena, number, base, arguments, scope, exits),
        Expr::Panic { arguments } => walk_all(arena, number, base, arguments, scope, exits),
        _ => walk_children(arena, number, base, scope, exits),
    }
}

/// Adds the exits of an expression with one child or two.
#[cycle(walk)]
fn walk_children(
    arena: &Arena,
    number: u32,
    base: usize,
    scope: &mut Vec<u32>,
    exits: &mut Exits,
) -> Result<(), AllocError>
    requires exits { spec.HasNoExit (view.term arena.now number) }
    requires lists { spec.HasNoList (view.term arena.now number) }
    ensures found { OnOk result (exits.new ≡ spec.exits base scope.old.items (view.term arena.now number) exits.old) }
    ensures scope { OnOk result (scope.new.items ≡ scope.old.items) }
{
    match arena.expr(number).expr {
        Expr::Set { place, value } => {
            walk(arena, place, base, scope, exits)?;
            walk(arena, value, base, scope, exits)
        }
        Expr::Swap { place, value } => {
            walk(arena, place, base, scope, exits)?;
            walk(arena, value, base, scope, exits)
        }
        Expr::Operate {
            receiver,
            argument,
            ..
        } => {
            walk(arena, receiver, base, scope, exits)?;
            walk(arena, argument, base, scope, exits)
        }
        Expr::Field { base: path, .. } => walk(arena, path, base, scope, exits),
        Expr::Borrow { operand, .. } => walk(arena, operand, base, scope, exits),
        Expr::Let { value, .. } => walk(arena, value, base, scope, exits),
        Expr::TypedLet { value, .. } => walk(arena, value, base, scope, exits),
        Expr::Recover { operand } => walk(arena, operand, base, scope, exits),
        Expr::Drop { value } => walk(arena, value, base, scope, exits),
        Expr::Statement { value } => walk(arena, value, base, scope, exits),
        _ => Ok(()),
    }
}

/// Adds the exits of a list of expressions.
#[cycle(walk)]
fn walk_all(
    arena: &Arena,
    parent: u32,
    base: usize,
    children: Children,
    scope: &mut Vec<u32>,
    exits: &mut Exits,
) -> Result<(), AllocError>
    requires { view.AreBefore arena.now parent children }
    ensures found { OnOk result (exits.new ≡ spec.exits_of_all base scope.old.items (view.terms arena.now (view.list arena.now children)) exits.old) }
    ensures scope { OnOk result (scope.new.items ≡ scope.old.items) }
{
    for child in arena.list(children) {
        walk(arena, *child, base, scope, exits)?;
    }
    Ok(())
}

/// Adds the exits of arguments.
#[cycle(walk)]
fn walk_arguments(
    arena: &Arena,
    parent: u32,
    base: usize,
    arguments: Children,
    scope: &mut Vec<u32>,
    exits: &mut Exits,
) -> Result<(), AllocError>
    requires { view.AreArgumentsBefore arena.now parent arguments }
    ensures found { OnOk result (exits.new ≡ spec.exits_of_arguments base scope.old.items (view.arguments arena.now (view.argument_list arena.now arguments)) exits.old) }
    ensures scope { OnOk result (scope.new.items ≡ scope.old.items) }
{
    for argument in arena.arguments(arguments) {
        walk(arena, argument.value, base, scope, exits)?;
    }
    Ok(())
}

/// Adds the exits of statements, and declares their variables.
#[cycle(walk)]
fn walk_statements(
    arena: &Arena,
    parent: u32,
    base: usize,
    statements: Children,
    scope: &mut Vec<u32>,
    exits: &mut Exits,
) -> Result<(), AllocError>
    requires { view.AreBefore arena.now parent statements }
    ensures found { OnOk result (exits.new ≡ spec.exits_in base scope.old.items (view.terms arena.now (view.list arena.now statements)) exits.old) }
    ensures scope { OnOk result (scope.new.items ≡ scopes.declare_all (view.terms arena.now (view.list arena.now statements)) scope.old.items) }
{
    for statement in arena.list(statements) {
        walk(arena, *statement, base, scope, exits)?;
        declare(arena, *statement, scope)?;
    }
    Ok(())
}

/// Adds the exits of a block, whose own end leaves what it declares.
#[cycle(walk)]
#[tactic(auto, using(crate::proofs::Kept::declared_kept))]
fn walk_block(
    arena: &Arena,
    parent: u32,
    base: usize,
    statements: Children,
    scope: &mut Vec<u32>,
    exits: &mut Exits,
) -> Result<(), AllocError>
    requires { view.AreBefore arena.now parent statements }
    ensures found { OnOk result (exits.new ≡ spec.exits_of_block base scope.old.items parent (view.terms arena.now (view.list arena.now statements)) exits.old) }
    ensures scope { OnOk result (scope.new.items ≡ scope.old.items) }
{
    let before = scope.len();
    walk_statements(arena, parent, base, statements, scope, exits)?;
    exits.put(parent, behind(scope, before))?;
    scope.truncate(before);
    Ok(())
}

/// Adds the exits of a guard.
#[cycle(walk)]
fn walk_guard(
    arena: &Arena,
    parent: u32,
    base: usize,
    guard: Option<u32>,
    scope: &mut Vec<u32>,
    exits: &mut Exits,
) -> Result<(), AllocError>
    requires { IfSome guard (view.IsBefore parent) }
    ensures found { OnOk result (exits.new ≡ spec.exits_of_guard base scope.old.items (view.guard arena.now guard) exits.old) }
    ensures scope { OnOk result (scope.new.items ≡ scope.old.items) }
{
    match guard {
        Some(guard) => walk(arena, guard, base, scope, exits),
        None => Ok(()),
    }
}

/// Adds the exits of an arm, whose own end leaves what its pattern binds. In its guard nothing is bound yet.
#[cycle(walk)]
#[tactic(auto, using(crate::proofs::Kept::bound_kept, crate::proofs::Kept::pattern_number))]
fn walk_arm(
    arena: &Arena,
    parent: u32,
    base: usize,
    arm: Arm,
    scope: &mut Vec<u32>,
    exits: &mut Exits,
) -> Result<(), AllocError>
    requires { view.IsArmBefore parent arm }
    ensures found { OnOk result (exits.new ≡ spec.exits_of_arm base scope.old.items (view.arm arena.now arm) exits.old) }
    ensures scope { OnOk result (scope.new.items ≡ scope.old.items) }
{
    walk_guard(arena, parent, base, arm.guard, scope, exits)?;
    let before = scope.len();
    bind(arena, arm.pattern, scope)?;
    walk(arena, arm.value, base, scope, exits)?;
    exits.put(arm.pattern, behind(scope, before))?;
    scope.truncate(before);
    Ok(())
}

/// Adds the exits of arms.
#[cycle(walk)]
fn walk_arms(
    arena: &Arena,
    parent: u32,
    base: usize,
    arms: Children,
    scope: &mut Vec<u32>,
    exits: &mut Exits,
) -> Result<(), AllocError>
    requires { view.AreArmsBefore arena.now parent arms }
    ensures found { OnOk result (exits.new ≡ spec.exits_of_arms base scope.old.items (view.arms arena.now (view.arm_list arena.now arms)) exits.old) }
    ensures scope { OnOk result (scope.new.items ≡ scope.old.items) }
{
    for arm in arena.arms(arms) {
        walk_arm(arena, parent, base, *arm, scope, exits)?;
    }
    Ok(())
}

/// Adds the exits of a method. An `AllocError` is want of memory, and what `exits` says of this method is open then.
#[tactic(auto, using(crate::proofs::Kept::parameters_numbers))]
pub fn add_method(
    alloc: Global,
    arena: &Arena,
    method: u32,
    exits: &mut Exits,
) -> Result<(), AllocError>
    ensures { OnOk result (exits.new ≡ spec.exits_of_method (view.method arena.now method) exits.old) }
{
    let node = arena.method(method).method;
    let mut scope = Vec::new(alloc);
    declare_self(method, node.mode, &mut scope)?;
    scope.extend_from_slice(arena.list(node.parameters))?;
    walk(arena, node.body, 0, &mut scope, exits)?;
    exits.put(method, &scope)
}
