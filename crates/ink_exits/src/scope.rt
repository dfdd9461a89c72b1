//! The variables in scope, in the order in which they are declared.
ghost use Rattle.std.specs.Prelude.{◌≡◌, ◌++◌, OnOk, drop};
ghost use Rattle.ink_exits.specs.Scopes as spec;
ghost use Rattle.ink_forms.specs.Views as view;

use ink_forms::{Arena, Binding, Children, Expr, Mode, Pattern};
use std::alloc::AllocError;

/// The variables behind the first so many.
pub(crate) fn behind(scope: &[u32], count: usize) -> &[u32]
    ensures { result.now ≡ drop count scope.now }
{
    if count <= scope.len() {
        &scope[count..]
    } else {
        &[]
    }
}

/// Declares what a binding names.
fn declare_binding(number: u32, binding: Binding, scope: &mut Vec<u32>) -> Result<(), AllocError>
    ensures { OnOk result (scope.new.items ≡ scope.old.items ++ spec.bound number binding) }
{
    match binding {
        Binding::Wildcard => {}
        Binding::Fixed(_) => scope.push(number)?,
        Binding::Mutable(_) => scope.push(number)?,
    }
    Ok(())
}

/// Declares what a statement declares.
pub(crate) fn declare(arena: &Arena, number: u32, scope: &mut Vec<u32>) -> Result<(), AllocError>
    ensures { OnOk result (scope.new.items ≡ spec.declare (view.term arena.now number) scope.old.items) }
{
    match arena.expr(number).expr {
        Expr::Let { binding, .. } => declare_binding(number, binding, scope),
        Expr::TypedLet { binding, .. } => declare_binding(number, binding, scope),
        _ => Ok(()),
    }
}

/// Declares the variables of a pattern.
#[cycle(bind)]
pub(crate) fn bind(arena: &Arena, number: u32, scope: &mut Vec<u32>) -> Result<(), AllocError>
    ensures { OnOk result (scope.new.items ≡ spec.bind (view.pat arena.now number) scope.old.items) }
{
    match arena.pattern(number).pattern {
        Pattern::Wildcard => Ok(()),
        Pattern::Lit { .. } => Ok(()),
        Pattern::Name { .. } => {
            scope.push(number)?;
            Ok(())
        }
        Pattern::Constructor { parts, .. } => bind_all(arena, number, parts, scope),
        Pattern::Either { alternatives } => bind_first(arena, number, alternatives, scope),
        Pattern::Fields { fields } => bind_fields(arena, number, fields, scope),
    }
}

/// Declares the variables of some patterns.
#[cycle(bind)]
fn bind_all(
    arena: &Arena,
    parent: u32,
    parts: Children,
    scope: &mut Vec<u32>,
) -> Result<(), AllocError>
    requires { view.AreBefore arena.now parent parts }
    ensures { OnOk result (scope.new.items ≡ spec.bind_all (view.pats arena.now (view.list arena.now parts)) scope.old.items) }
{
    for part in arena.list(parts) {
        bind(arena, *part, scope)?;
    }
    Ok(())
}

/// Declares the variables of the first alternative.
#[cycle(bind)]
fn bind_first(
    arena: &Arena,
    parent: u32,
    alternatives: Children,
    scope: &mut Vec<u32>,
) -> Result<(), AllocError>
    requires { view.AreBefore arena.now parent alternatives }
    ensures { OnOk result (scope.new.items ≡ spec.bind_first (view.pats arena.now (view.list arena.now alternatives)) scope.old.items) }
{
    match arena.list(alternatives).first() {
        Some(first) => bind(arena, *first, scope),
        None => Ok(()),
    }
}

/// Declares the variables of field patterns.
#[cycle(bind)]
fn bind_fields(
    arena: &Arena,
    parent: u32,
    fields: Children,
    scope: &mut Vec<u32>,
) -> Result<(), AllocError>
    requires { view.AreFieldsBefore arena.now parent fields }
    ensures { OnOk result (scope.new.items ≡ spec.bind_fields (view.fields arena.now (view.field_list arena.now fields)) scope.old.items) }
{
    for field in arena.fields(fields) {
        bind(arena, field.pattern, scope)?;
    }
    Ok(())
}

/// Declares a moved `self`.
pub(crate) fn declare_self(method: u32, mode: Mode, scope: &mut Vec<u32>) -> Result<(), AllocError>
    ensures { OnOk result (scope.new.items ≡ scope.old.items ++ spec.moved_self method mode) }
{
    if let Mode::Move = mode {
        scope.push(method)?;
    }
    Ok(())
}
