//! The points of single events.
ghost use Rattle.std.specs.Prelude.{◌<◌, ◌≤◌, length, OnOk, IfOk};
ghost use Rattle.ink_moves.specs.Around as spec;

use crate::around::{Around, Want};
use crate::body::Bodies;
use ink_forms::{Binding, Expr};
use ink_paths::{Event, Flow, Point, PointId};
use std::alloc::AllocError;

/// Adds an event.
fn add(flow: &mut Flow, event: Event, site: u32, next: PointId) -> Result<PointId, AllocError>
    requires { next < length flow.old }
    ensures grows { OnOk result (length flow.old ≤ length flow.new) }
    ensures within { IfOk result (λ n. n < length flow.new) }
{
    flow.add(Point::Then { event, site, next })
}

/// Adds that an exit is reached.
pub(crate) fn leave(flow: &mut Flow, exit: u32, next: PointId) -> Result<PointId, AllocError>
    requires { next < length flow.old }
    ensures grows { OnOk result (length flow.old ≤ length flow.new) }
    ensures within { IfOk result (λ n. n < length flow.new) }
{
    add(flow, Event::Exit, exit, next)
}

/// Adds that an expression is read, where it is a variable of which more than the place is wanted.
pub(crate) fn read(
    bodies: &Bodies,
    flow: &mut Flow,
    number: u32,
    want: Want,
    around: Around,
) -> Result<PointId, AllocError>
    requires { spec.IsAround (length flow.old) around }
    ensures grows { OnOk result (length flow.old ≤ length flow.new) }
    ensures within { IfOk result (λ n. n < length flow.new) }
{
    let Some(variable) = bodies.variable(number) else {
        return Ok(around.next);
    };
    if let Want::Place = want {
        return Ok(around.next);
    }
    let event = if bodies.is_moved(number, variable, want, around.guard) {
        Event::Moves(variable)
    } else {
        Event::Uses(variable)
    };
    add(flow, event, number, around.next)
}

/// Adds that a place is written, where it is a variable.
fn write(
    bodies: &Bodies,
    flow: &mut Flow,
    site: u32,
    place: u32,
    next: PointId,
) -> Result<PointId, AllocError>
    requires { next < length flow.old }
    ensures grows { OnOk result (length flow.old ≤ length flow.new) }
    ensures within { IfOk result (λ n. n < length flow.new) }
{
    match bodies.variable(place) {
        Some(variable) => add(flow, Event::Writes(variable), site, next),
        None => Ok(next),
    }
}

/// Adds that a `let` declares a variable, where it does.
fn declare(
    flow: &mut Flow,
    site: u32,
    binding: Binding,
    next: PointId,
) -> Result<PointId, AllocError>
    requires { next < length flow.old }
    ensures grows { OnOk result (length flow.old ≤ length flow.new) }
    ensures within { IfOk result (λ n. n < length flow.new) }
{
    match binding {
        Binding::Wildcard => Ok(next),
        Binding::Fixed(_) | Binding::Mutable(_) => add(flow, Event::Writes(site), site, next),
    }
}

/// Adds that the variables of a pattern are declared.
pub(crate) fn bind(
    bodies: &Bodies,
    flow: &mut Flow,
    pattern: u32,
    next: PointId,
) -> Result<PointId, AllocError>
    requires { next < length flow.old }
    ensures grows { OnOk result (length flow.old ≤ length flow.new) }
    ensures within { IfOk result (λ n. n < length flow.new) }
{
    let mut first = next;
    for variable in bodies.exits.leaves(pattern) {
        first = add(flow, Event::Writes(*variable), pattern, first)?;
    }
    Ok(first)
}

/// Adds what an expression does itself, behind the work on its children: it writes, declares, is left or jumps.
pub(crate) fn finish(
    bodies: &Bodies,
    flow: &mut Flow,
    number: u32,
    around: Around,
) -> Result<PointId, AllocError>
    requires { spec.IsAround (length flow.old) around }
    ensures grows { OnOk result (length flow.old ≤ length flow.new) }
    ensures within { IfOk result (λ n. n < length flow.new) }
{
    match bodies.arena.expr(number).expr {
        Expr::Set { place, .. } => write(bodies, flow, number, place, around.next),
        Expr::Swap { place, .. } => write(bodies, flow, number, place, around.next),
        Expr::Let { binding, .. } => declare(flow, number, binding, around.next),
        Expr::TypedLet { binding, .. } => declare(flow, number, binding, around.next),
        Expr::Block { .. } => leave(flow, number, around.next),
        Expr::Return { .. } => leave(flow, number, around.end),
        Expr::Break => leave(flow, number, around.exit),
        Expr::Next => leave(flow, number, around.turn),
        Expr::Panic { .. } => Ok(around.end),
        _ => Ok(around.next),
    }
}
