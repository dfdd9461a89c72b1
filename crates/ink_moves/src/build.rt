//! The flow graph of a body, from its end to its start.
ghost use Rattle.std.specs.Prelude.{◌<◌, ◌≤◌, length, All, OnOk, IfOk, IfSome};
ghost use Rattle.ink_forms.specs.Views as view;
ghost use Rattle.ink_moves.specs.Around as spec;

use crate::around::{Around, Guard, Want};
use crate::body::Bodies;
use crate::events::{bind, finish, leave, read};
use ink_forms::{Arm, Children, Expr, Part, Step, early_steps, late_steps};
use ink_paths::{Flow, Point, PointId};
use std::alloc::AllocError;

/// The early steps of an expression's work, which are all steps of what is no path.
fn early_steps_of(bodies: &Bodies, number: u32) -> Result<Vec<Step>, AllocError>
    ensures { IfOk result (λ steps. All (λ step. step.node < number) steps.items) }
{
    let mut steps = Vec::new(bodies.alloc);
    early_steps(bodies.arena, number, bodies.is_call(number), &mut steps)?;
    Ok(steps)
}

/// The late steps of an expression's work.
fn late_steps_of(bodies: &Bodies, number: u32) -> Result<Vec<Step>, AllocError>
    ensures { IfOk result (λ steps. All (λ step. step.node < number) steps.items) }
{
    let mut steps = Vec::new(bodies.alloc);
    late_steps(bodies.arena, number, bodies.is_call(number), &mut steps)?;
    Ok(steps)
}

/// The steps of an expression's work that are late, or those that aren't.
fn steps_of(bodies: &Bodies, number: u32, part: Part) -> Result<Vec<Step>, AllocError>
    ensures { IfOk result (λ steps. All (λ step. step.node < number) steps.items) }
{
    match part {
        Part::Late => late_steps_of(bodies, number),
        Part::Early | Part::Whole => early_steps_of(bodies, number),
    }
}

/// Adds the work of an expression's steps, the last one first.
#[cycle(build)]
fn build_steps(
    bodies: &Bodies,
    flow: &mut Flow,
    number: u32,
    part: Part,
    around: Around,
) -> Result<PointId, AllocError>
    requires { spec.IsAround (length flow.old) around }
    ensures grows { OnOk result (length flow.old ≤ length flow.new) }
    ensures within { IfOk result (λ n. n < length flow.new) }
{
    let mut steps = steps_of(bodies, number, part)?;
    let mut next = around.next;
    while let Some(step) = steps.pop() {
        let want = bodies.want(number, step.part);
        next = build_step(bodies, flow, step, want, Around { next, ..around })?;
    }
    Ok(next)
}

/// Adds what is worked of an expression in one step.
#[cycle(build)]
fn build_step(
    bodies: &Bodies,
    flow: &mut Flow,
    step: Step,
    want: Want,
    around: Around,
) -> Result<PointId, AllocError>
    requires { spec.IsAround (length flow.old) around }
    ensures grows { OnOk result (length flow.old ≤ length flow.new) }
    ensures within { IfOk result (λ n. n < length flow.new) }
{
    match step.part {
        Part::Early => build_early(bodies, flow, step.node, around),
        Part::Late => build_late(bodies, flow, step.node, want, around),
        Part::Whole => build_whole(bodies, flow, step.node, want, around),
    }
}

/// Adds the whole work of an expression.
#[cycle(build)]
fn build_whole(
    bodies: &Bodies,
    flow: &mut Flow,
    number: u32,
    want: Want,
    around: Around,
) -> Result<PointId, AllocError>
    requires { spec.IsAround (length flow.old) around }
    ensures grows { OnOk result (length flow.old ≤ length flow.new) }
    ensures within { IfOk result (λ n. n < length flow.new) }
{
    let next = build_late(bodies, flow, number, want, around)?;
    let first = build_early(bodies, flow, number, Around { next, ..around })?;
    Ok(first)
}

/// Adds what is worked of an expression behind the arguments or the written value: a variable is read, and so is the base
/// of a field.
#[cycle(build)]
fn build_late(
    bodies: &Bodies,
    flow: &mut Flow,
    number: u32,
    want: Want,
    around: Around,
) -> Result<PointId, AllocError>
    requires { spec.IsAround (length flow.old) around }
    ensures grows { OnOk result (length flow.old ≤ length flow.new) }
    ensures within { IfOk result (λ n. n < length flow.new) }
{
    let next = read(bodies, flow, number, want, around)?;
    let first = build_steps(bodies, flow, number, Part::Late, Around { next, ..around })?;
    Ok(first)
}

/// Adds what is worked of an expression before that.
#[cycle(build)]
fn build_early(
    bodies: &Bodies,
    flow: &mut Flow,
    number: u32,
    around: Around,
) -> Result<PointId, AllocError>
    requires { spec.IsAround (length flow.old) around }
    ensures grows { OnOk result (length flow.old ≤ length flow.new) }
    ensures within { IfOk result (λ n. n < length flow.new) }
{
    match bodies.arena.expr(number).expr {
        Expr::Loop { body } => build_loop(bodies, flow, number, body, around),
        Expr::Match {
            scrutinee,
            arms,
            ..
        } => build_match(bodies, flow, number, scrutinee, arms, around),
        _ => {
            let next = finish(bodies, flow, number, around)?;
            let first = build_steps(bodies, flow, number, Part::Early, Around { next, ..around })?;
            Ok(first)
        }
    }
}

/// Adds a loop. Its head is reserved, since each turn goes on there.
#[cycle(build)]
fn build_loop(
    bodies: &Bodies,
    flow: &mut Flow,
    parent: u32,
    body: u32,
    around: Around,
) -> Result<PointId, AllocError>
    requires around { spec.IsAround (length flow.old) around }
    requires before { body < parent }
    ensures grows { OnOk result (length flow.old ≤ length flow.new) }
    ensures within { IfOk result (λ n. n < length flow.new) }
{
    let head = flow.add(Point::Stop)?;
    let inside = Around {
        next: head,
        exit: around.next,
        turn: head,
        end: around.end,
        guard: around.guard,
    };
    let first = build_whole(bodies, flow, body, Want::Value, inside)?;
    flow.replace(
        head,
        Point::Fork {
            one: first,
            other: first,
        },
    );
    Ok(head)
}

/// Adds a choice: its scrutinee is given away, and each arm may follow it.
#[cycle(build)]
fn build_match(
    bodies: &Bodies,
    flow: &mut Flow,
    parent: u32,
    scrutinee: u32,
    arms: Children,
    around: Around,
) -> Result<PointId, AllocError>
    requires around { spec.IsAround (length flow.old) around }
    requires before { scrutinee < parent }
    requires arms { view.AreArmsBefore bodies.now.arena.now parent arms }
    ensures grows { OnOk result (length flow.old ≤ length flow.new) }
    ensures within { IfOk result (λ n. n < length flow.new) }
{
    let next = build_arms(bodies, flow, parent, arms, around)?;
    let first = build_whole(
        bodies,
        flow,
        scrutinee,
        Want::Value,
        Around { next, ..around },
    )?;
    Ok(first)
}

/// Adds arms, the last one first.
#[cycle(build)]
fn build_arms(
    bodies: &Bodies,
    flow: &mut Flow,
    parent: u32,
    arms: Children,
    around: Around,
) -> Result<PointId, AllocError>
    requires around { spec.IsAround (length flow.old) around }
    requires arms { view.AreArmsBefore bodies.now.arena.now parent arms }
    ensures grows { OnOk result (length flow.old ≤ length flow.new) }
    ensures within { IfOk result (λ n. n < length flow.new) }
{
    let arms = bodies.arena.arms(arms);
    let mut rest = around.end;
    for index in 0..arms.len() {
        let arm = arms[arms.len() - 1 - index];
        rest = build_arm(bodies, flow, parent, arm, rest, around)?;
    }
    Ok(rest)
}

/// Adds an arm before the rest of the arms. Its variables are declared before its guard, which is followed by its value or
/// by the rest.
#[cycle(build)]
fn build_arm(
    bodies: &Bodies,
    flow: &mut Flow,
    parent: u32,
    arm: Arm,
    rest: PointId,
    around: Around,
) -> Result<PointId, AllocError>
    requires around { spec.IsAround (length flow.old) around }
    requires rest { rest < length flow.old }
    requires arm { view.IsArmBefore parent arm }
    ensures grows { OnOk result (length flow.old ≤ length flow.new) }
    ensures within { IfOk result (λ n. n < length flow.new) }
{
    let next = leave(flow, arm.pattern, around.next)?;
    let value = build_whole(
        bodies,
        flow,
        arm.value,
        Want::Value,
        Around { next, ..around },
    )?;
    let tried = build_guard(bodies, flow, parent, arm, value, rest, around)?;
    let one = bind(bodies, flow, arm.pattern, tried)?;
    let first = flow.add(Point::Fork { one, other: rest })?;
    Ok(first)
}

/// Adds the guard of an arm, if it has one, before the arm's value and the rest of the arms.
#[cycle(build)]
fn build_guard(
    bodies: &Bodies,
    flow: &mut Flow,
    parent: u32,
    arm: Arm,
    value: PointId,
    rest: PointId,
    around: Around,
) -> Result<PointId, AllocError>
    requires around { spec.IsAround (length flow.old) around }
    requires value { value < length flow.old }
    requires rest { rest < length flow.old }
    requires arm { view.IsArmBefore parent arm }
    ensures grows { OnOk result (length flow.old ≤ length flow.new) }
    ensures within { IfOk result (λ n. n < length flow.new) }
{
    let Some(condition) = arm.guard else {
        return Ok(value);
    };
    let next = flow.add(Point::Fork {
        one: value,
        other: rest,
    })?;
    let guard = Some(Guard {
        pattern: arm.pattern,
        condition,
    });
    let inside = Around {
        next,
        guard,
        ..around
    };
    let first = build_whole(bodies, flow, condition, Want::Value, inside)?;
    Ok(first)
}

/// The graph of a method's body, and the point at which it starts.
pub(crate) fn build_body(bodies: &Bodies, method: u32) -> Result<(Flow, PointId), AllocError>
    ensures { IfOk result (λ r. r.1 < length r.0) }
{
    let mut flow = Flow::new(bodies.alloc);
    let end = flow.add(Point::Stop)?;
    let next = leave(&mut flow, method, end)?;
    let around = Around {
        next,
        exit: end,
        turn: end,
        end,
        guard: None,
    };
    let body = bodies.arena.method(method).method.body;
    let start = build_whole(bodies, &mut flow, body, Want::Value, around)?;
    Ok((flow, start))
}
