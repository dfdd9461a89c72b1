//! The walk.
ghost use Rattle.std.specs.Prelude.{◌<◌, IfSome};
ghost use Rattle.ink_forms.specs.Views as view;

use crate::around::{Around, Turn};
use crate::choices::{
    Chain, Matched, begin, begin_guard, bind_arm, end_arm, end_choice, end_false_side, end_guard,
    join_arm, joined, no_arms, try_arm,
};
use crate::exits::{end_loop, give_break, give_next, give_return, give_up, leave};
use ink_emit::{Given, Holding, LowerFault};
use ink_forms::{Arm, Binding, Children, Choice, Expr, ExprId};
use ink_operations::{
    Room, Root, Work, called_on, give_borrow, give_call, give_field, give_listed, give_literal,
    give_new, give_self, give_variable, hold_root, is_late, put_declared, root_of, write_field,
    write_variable,
};

/// The code of an expression.
#[cycle(walk)]
pub(crate) fn walk(
    room: &Room,
    around: Around,
    work: &mut Work,
    number: ExprId,
) -> Result<Given, LowerFault> {
    match room.arena.expr(number).expr {
        Expr::Lit { literal } => give_literal(room, work, number, literal),
        Expr::Var { .. } => give_variable(room, work, number),
        Expr::SelfValue => give_self(room, work, number),
        Expr::Break => give_break(room, around, work, number),
        Expr::Next => give_next(room, around, work, number),
        Expr::Return { value } => {
            let given = walk(room, around, work, value)?;
            give_return(room, work, number, given)
        }
        Expr::Drop { value } => {
            let given = walk(room, around, work, value)?;
            give_up(room, around, work, value, given)
        }
        Expr::Recover { operand } => {
            let line = room.first_line(operand);
            walk_stated(room, around, work, operand, line)
        }
        Expr::Statement { value } => {
            let start = room.arena.expr(number).start;
            walk_stated(room, around.stated(start), work, value, room.line(start))
        }
        Expr::Block { end, statements } => {
            walk_block(room, around, work, number, end, statements)
        }
        Expr::Loop { body } => walk_loop(room, around, work, number, body),
        _ => walk_inner(room, around, work, number),
    }
}

/// The code of an expression that chooses, declares, writes or borrows.
#[cycle(walk)]
fn walk_inner(
    room: &Room,
    around: Around,
    work: &mut Work,
    number: ExprId,
) -> Result<Given, LowerFault> {
    match room.arena.expr(number).expr {
        Expr::Match {
            choice,
            scrutinee,
            arms,
        } => match choice {
            Choice::Match | Choice::Try => {
                walk_match(room, around, work, number, scrutinee, arms)
            }
            Choice::If | Choice::While | Choice::And | Choice::Or => {
                walk_condition(room, around, work, number, scrutinee, arms)
            }
        },
        Expr::Let { binding, value } => walk_let(room, around, work, number, binding, value),
        Expr::TypedLet { binding, value, .. } => {
            walk_let(room, around, work, number, binding, value)
        }
        Expr::Set { place, value } => walk_write(room, around, work, number, place, value),
        Expr::Swap { place, value } => walk_write(room, around, work, number, place, value),
        Expr::Borrow { operand, .. } => walk_borrow(room, around, work, number, operand),
        _ => walk_called(room, around, work, number),
    }
}

/// The code of an expression over operands.
#[cycle(walk)]
fn walk_called(
    room: &Room,
    around: Around,
    work: &mut Work,
    number: ExprId,
) -> Result<Given, LowerFault> {
    match room.arena.expr(number).expr {
        Expr::Field { base, .. } => walk_field(room, around, work, number, base),
        Expr::Call {
            receiver,
            arguments,
            ..
        } => walk_call(room, around, work, number, receiver, arguments),
        Expr::Operate {
            receiver,
            argument,
            ..
        } => walk_operator(room, around, work, number, receiver, argument),
        Expr::Fn { arguments, .. } => walk_listed(room, around, work, number, arguments),
        Expr::Static { arguments, .. } => walk_listed(room, around, work, number, arguments),
        Expr::Panic { arguments } => walk_listed(room, around, work, number, arguments),
        Expr::Arr { items } => walk_listed(room, around, work, number, items),
        Expr::New { arguments, .. } => walk_new(room, around, work, number, arguments),
        Expr::NewOf { arguments, .. } => walk_new(room, around, work, number, arguments),
        _ => Ok(Given::Nil),
    }
}

/// The code of an expression at whose end its temporaries end, at this line. Its value stays in its register meanwhile.
#[cycle(walk)]
fn walk_stated(
    room: &Room,
    around: Around,
    work: &mut Work,
    number: ExprId,
    line: u32,
) -> Result<Given, LowerFault> {
    let mark = work.body.mark();
    let given = walk(room, around, work, number)?;
    if let Given::Ends = given {
        return Ok(Given::Ends);
    }
    work.body.end_temporaries(mark, line)?;
    Ok(given)
}

/// The code of a block. At its end what it declares goes.
#[cycle(walk)]
fn walk_block(
    room: &Room,
    around: Around,
    work: &mut Work,
    parent: ExprId,
    end: u32,
    statements: Children,
) -> Result<Given, LowerFault>
    requires { view.AreBefore room.now.arena.now parent statements }
{
    let mut given = Given::Nil;
    for statement in room.arena.list(statements) {
        given = walk(room, around, work, *statement)?;
        if let Given::Ends = given {
            return Ok(Given::Ends);
        }
    }
    leave(room, work, parent, room.line(end))?;
    Ok(given)
}

/// The code of a loop.
#[cycle(walk)]
fn walk_loop(
    room: &Room,
    around: Around,
    work: &mut Work,
    number: ExprId,
    body: ExprId,
) -> Result<Given, LowerFault>
    requires { body < number }
{
    let outer = work.breaks.len();
    let turn = Turn {
        start: work.body.place(),
        mark: work.body.mark(),
    };
    let given = walk(room, around.looped(turn), work, body)?;
    end_loop(room, work, number, turn, given, outer)
}

/// The code of a `let`, which is a statement.
#[cycle(walk)]
fn walk_let(
    room: &Room,
    around: Around,
    work: &mut Work,
    number: ExprId,
    binding: Binding,
    value: ExprId,
) -> Result<Given, LowerFault>
    requires { value < number }
{
    let start = room.arena.expr(number).start;
    let line = room.line(start);
    let mark = work.body.mark();
    let given = walk(room, around.stated(start), work, value)?;
    let Some(from) = work.settle(room, given, line)? else {
        return Ok(Given::Ends);
    };
    put_declared(room, work, number, binding, value, from)?;
    work.body.end_temporaries(mark, line)?;
    Ok(Given::Nil)
}

/// The code of the root of a path, as far as it comes before the arguments or the written value. `None` where it ends.
#[cycle(walk)]
fn walk_root(
    room: &Room,
    around: Around,
    work: &mut Work,
    parent: ExprId,
    path: ExprId,
) -> Result<Option<Root>, LowerFault>
    requires { path < parent }
{
    let root = root_of(room, path);
    if is_late(room, root) {
        return Ok(Some(Root::Late));
    }
    let given = walk(room, around, work, root)?;
    let Some(register) = work.settle(room, given, room.line_of(root))? else {
        return Ok(None);
    };
    let is_taken = root == path && room.moves_receiver(parent);
    let root = hold_root(room, work, root, is_taken, register)?;
    Ok(Some(root))
}

/// The code of an operand, which is held. Whether control goes on behind it.
#[cycle(walk)]
fn walk_operand(
    room: &Room,
    around: Around,
    work: &mut Work,
    number: ExprId,
) -> Result<bool, LowerFault> {
    let given = walk(room, around, work, number)?;
    match work.settle(room, given, room.line_of(number))? {
        Some(register) => {
            work.body.hold(register, Holding::Operand)?;
            Ok(true)
        }
        None => Ok(false),
    }
}

/// The code of operands, which are held. Whether control goes on behind them.
#[cycle(walk)]
fn walk_operands(
    room: &Room,
    around: Around,
    work: &mut Work,
    parent: ExprId,
    operands: Children,
) -> Result<bool, LowerFault>
    requires { view.AreBefore room.now.arena.now parent operands }
{
    for operand in room.arena.list(operands) {
        if !walk_operand(room, around, work, *operand)? {
            return Ok(false);
        }
    }
    Ok(true)
}

/// The code of the arguments of a new object, which are held. Whether control goes on behind them.
#[cycle(walk)]
fn walk_arguments(
    room: &Room,
    around: Around,
    work: &mut Work,
    parent: ExprId,
    arguments: Children,
) -> Result<bool, LowerFault>
    requires { view.AreArgumentsBefore room.now.arena.now parent arguments }
{
    for argument in room.arena.arguments(arguments) {
        if !walk_operand(room, around, work, argument.value)? {
            return Ok(false);
        }
    }
    Ok(true)
}

/// The code of a field, or of a call without arguments.
#[cycle(walk)]
fn walk_field(
    room: &Room,
    around: Around,
    work: &mut Work,
    number: ExprId,
    base: ExprId,
) -> Result<Given, LowerFault>
    requires { base < number }
{
    let mark = work.body.mark();
    let Some(root) = walk_root(room, around, work, number, base)? else {
        return Ok(Given::Ends);
    };
    if room.is_call(number) {
        return give_call(room, work, called_on(room, number, base, root, mark));
    }
    give_field(room, work, number, root)
}

/// The code of a call of a method by its name.
#[cycle(walk)]
fn walk_call(
    room: &Room,
    around: Around,
    work: &mut Work,
    number: ExprId,
    receiver: ExprId,
    arguments: Children,
) -> Result<Given, LowerFault>
    requires receiver { receiver < number }
    requires arguments { view.AreBefore room.now.arena.now number arguments }
{
    let mark = work.body.mark();
    let Some(root) = walk_root(room, around, work, number, receiver)? else {
        return Ok(Given::Ends);
    };
    if !walk_operands(room, around, work, number, arguments)? {
        return Ok(Given::Ends);
    }
    give_call(room, work, called_on(room, number, receiver, root, mark))
}

/// The code of a call of a method by its operator.
#[cycle(walk)]
fn walk_operator(
    room: &Room,
    around: Around,
    work: &mut Work,
    number: ExprId,
    receiver: ExprId,
    argument: ExprId,
) -> Result<Given, LowerFault>
    requires receiver { receiver < number }
    requires argument { argument < number }
{
    let mark = work.body.mark();
    let Some(root) = walk_root(room, around, work, number, receiver)? else {
        return Ok(Given::Ends);
    };
    if !walk_operand(room, around, work, argument)? {
        return Ok(Given::Ends);
    }
    give_call(room, work, called_on(room, number, receiver, root, mark))
}

/// The code of a form over a list of operands.
#[cycle(walk)]
fn walk_listed(
    room: &Room,
    around: Around,
    work: &mut Work,
    number: ExprId,
    operands: Children,
) -> Result<Given, LowerFault>
    requires { view.AreBefore room.now.arena.now number operands }
{
    let mark = work.body.mark();
    if !walk_operands(room, around, work, number, operands)? {
        return Ok(Given::Ends);
    }
    give_listed(room, work, number, mark)
}

/// The code of a new object.
#[cycle(walk)]
fn walk_new(
    room: &Room,
    around: Around,
    work: &mut Work,
    number: ExprId,
    arguments: Children,
) -> Result<Given, LowerFault>
    requires { view.AreArgumentsBefore room.now.arena.now number arguments }
{
    let mark = work.body.mark();
    if !walk_arguments(room, around, work, number, arguments)? {
        return Ok(Given::Ends);
    }
    give_new(room, work, number, room.arena.arguments(arguments), mark)
}

/// The code of a borrow. That of a value is the value.
#[cycle(walk)]
fn walk_borrow(
    room: &Room,
    around: Around,
    work: &mut Work,
    number: ExprId,
    operand: ExprId,
) -> Result<Given, LowerFault>
    requires { operand < number }
{
    if room.is_value(number) {
        return walk(room, around, work, operand);
    }
    let Some(root) = walk_root(room, around, work, number, operand)? else {
        return Ok(Given::Ends);
    };
    give_borrow(room, work, number, operand, root)
}

/// The code of a write to a variable or to a field.
#[cycle(walk)]
fn walk_write(
    room: &Room,
    around: Around,
    work: &mut Work,
    number: ExprId,
    place: ExprId,
    value: ExprId,
) -> Result<Given, LowerFault>
    requires place { place < number }
    requires value { value < number }
{
    let mark = work.body.mark();
    if let Some(variable) = room.variable(place) {
        let given = walk(room, around, work, value)?;
        return write_variable(room, work, number, variable, given);
    }
    let Some(root) = walk_root(room, around, work, number, place)? else {
        return Ok(Given::Ends);
    };
    if !walk_operand(room, around, work, value)? {
        return Ok(Given::Ends);
    }
    write_field(room, work, number, place, root, mark)
}

/// The code of a choice by a condition: a jump where it is true, and before its target the other side.
#[cycle(walk)]
fn walk_condition(
    room: &Room,
    around: Around,
    work: &mut Work,
    number: ExprId,
    scrutinee: ExprId,
    arms: Children,
) -> Result<Given, LowerFault>
    requires scrutinee { scrutinee < number }
    requires arms { view.AreArmsBefore room.now.arena.now number arms }
{
    let line = room.first_line(scrutinee);
    let given = walk_stated(room, around, work, scrutinee, line)?;
    let Some(on) = work.settle(room, given, line)? else {
        return Ok(Given::Ends);
    };
    let matched = begin(work, number, scrutinee, on);
    let yes = work.body.jump_if(line, on)?;
    let on_false = walk_side(room, around, work, number, matched, arms, 1)?;
    let mut chain = no_arms(room);
    end_false_side(work, on_false, line, &mut chain)?;
    work.body.land(yes);
    let on_true = walk_side(room, around, work, number, matched, arms, 0)?;
    work.body.release(matched.mark);
    work.body.land_all(&chain.ends);
    Ok(joined(room, matched, on_true || on_false))
}

/// The code of a side of a choice by a condition. Whether control goes on behind it.
#[cycle(walk)]
fn walk_side(
    room: &Room,
    around: Around,
    work: &mut Work,
    parent: ExprId,
    matched: Matched,
    arms: Children,
    side: usize,
) -> Result<bool, LowerFault>
    requires { view.AreArmsBefore room.now.arena.now parent arms }
{
    work.body.release(matched.mark);
    match room.arena.arms(arms).get(side) {
        Some(arm) => walk_value(room, around, work, parent, matched, *arm),
        None => Ok(true),
    }
}

/// The code of an arm's value. Whether control goes on behind it.
#[cycle(walk)]
fn walk_value(
    room: &Room,
    around: Around,
    work: &mut Work,
    parent: ExprId,
    matched: Matched,
    arm: Arm,
) -> Result<bool, LowerFault>
    requires { view.IsArmBefore parent arm }
{
    let line = room.first_line(arm.value);
    let given = walk_stated(room, around, work, arm.value, line)?;
    end_arm(room, work, matched, arm, given)
}

/// The code of a choice by patterns. A scrutinee of a value type is a statement.
#[cycle(walk)]
fn walk_match(
    room: &Room,
    around: Around,
    work: &mut Work,
    number: ExprId,
    scrutinee: ExprId,
    arms: Children,
) -> Result<Given, LowerFault>
    requires scrutinee { scrutinee < number }
    requires arms { view.AreArmsBefore room.now.arena.now number arms }
{
    let line = room.first_line(scrutinee);
    let given = if room.is_value(scrutinee) {
        walk_stated(room, around, work, scrutinee, line)?
    } else {
        walk(room, around, work, scrutinee)?
    };
    let Some(register) = work.settle(room, given, line)? else {
        return Ok(Given::Ends);
    };
    let matched = begin(work, number, scrutinee, register);
    let mut chain = no_arms(room);
    walk_arms(room, around, work, number, matched, arms, &mut chain)?;
    end_choice(room, work, matched, &chain)
}

/// The code of arms, in order. Behind one that always fits no other is tried.
#[cycle(walk)]
fn walk_arms(
    room: &Room,
    around: Around,
    work: &mut Work,
    parent: ExprId,
    matched: Matched,
    arms: Children,
    chain: &mut Chain,
) -> Result<(), LowerFault>
    requires { view.AreArmsBefore room.now.arena.now parent arms }
{
    let list = room.arena.arms(arms);
    let mut left = list.len();
    for arm in list {
        left = left.saturating_sub(1);
        walk_arm(room, around, work, parent, matched, *arm, left == 0, chain)?;
        if chain.failed.is_empty() {
            return Ok(());
        }
    }
    Ok(())
}

/// The code of an arm.
#[cycle(walk)]
fn walk_arm(
    room: &Room,
    around: Around,
    work: &mut Work,
    parent: ExprId,
    matched: Matched,
    arm: Arm,
    is_last: bool,
    chain: &mut Chain,
) -> Result<(), LowerFault>
    requires { view.IsArmBefore parent arm }
{
    try_arm(room, work, matched, arm, is_last, chain)?;
    if !walk_guard(room, around, work, parent, matched, arm, chain)? {
        return Ok(());
    }
    bind_arm(room, work, matched, arm)?;
    if walk_value(room, around, work, parent, matched, arm)? {
        join_arm(room, work, arm, is_last, chain)?;
    }
    Ok(())
}

/// The code of an arm's guard, where it has one. Whether control goes on behind it.
#[cycle(walk)]
fn walk_guard(
    room: &Room,
    around: Around,
    work: &mut Work,
    parent: ExprId,
    matched: Matched,
    arm: Arm,
    chain: &mut Chain,
) -> Result<bool, LowerFault>
    requires { view.IsArmBefore parent arm }
{
    let Some(condition) = arm.guard else {
        return Ok(true);
    };
    begin_guard(work, matched, arm)?;
    let line = room.first_line(condition);
    let given = walk_stated(room, around, work, condition, line)?;
    end_guard(room, work, condition, given, chain)
}
