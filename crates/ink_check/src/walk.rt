//! The walk along the expressions of a body.
ghost use Rattle.std.specs.Prelude.{◌≡◌, ◌<◌};
ghost use Rattle.ink_forms.specs.Views as view;

use ink_expressions::{
    Arms, Calling, Guard, Operand, Room, Selected, Spot, State, Within, annotation_type,
    array_rule, begin_call, begin_construction, begin_function, begin_on, begin_operator,
    begin_static, borrow_rule, condition_wanted, field_place, finish, give_type, item_wanted,
    jump_rule, literal_rule, loop_rule, never_rule, next_argument, next_arm, nil_rule,
    panic_wanted, recover_rule, select_member, self_rule, set_rule, start_arms, static_place,
    swap_rule, take_argument, variable_place, variable_rule,
};
use ink_forms::{Children, Choice, Expr, ExprId, NameId, Operator, Selector, WrittenTypeId};
use ink_pattern_types::pattern_types;
use ink_types::TypeId;
use std::alloc::AllocError;

/// An expression with what is expected of it.
fn spot_of(room: &Room, number: ExprId, wanted: Option<TypeId>) -> Spot
    ensures { result.number ≡ number }
{
    let node = room.members.arena.expr(number);
    Spot {
        number,
        start: node.start,
        place: node.place,
        wanted,
    }
}

/// The type of an expression of which this is expected. There is none where it breaks a rule, or rests on what does.
#[cycle(walk)]
pub(crate) fn walk(
    room: &Room,
    within: Within,
    state: &mut State,
    number: ExprId,
    wanted: Option<TypeId>,
) -> Result<Option<TypeId>, AllocError> {
    let spot = spot_of(room, number, wanted);
    match room.members.arena.expr(spot.number).expr {
        Expr::Lit { literal } => literal_rule(state, spot, literal),
        Expr::Var { .. } => variable_rule(room, state, spot),
        Expr::SelfValue => Ok(self_rule(within, state, spot)),
        Expr::Break => jump_rule(state, spot, true),
        Expr::Next => jump_rule(state, spot, false),
        Expr::Block { end, statements } => {
            walk_block(room, within, state, spot, end, statements)
        }
        Expr::Match {
            choice,
            scrutinee,
            arms,
        } => walk_match(room, within, state, spot, choice, scrutinee, arms),
        Expr::Statement { value } => {
            let of = walk(room, within, state, value, wanted)?;
            give_type(state, number, of);
            Ok(of)
        }
        _ => walk_simple(room, within, state, spot),
    }
}

/// The type of an expression over one other, or over two.
#[cycle(walk)]
fn walk_simple(
    room: &Room,
    within: Within,
    state: &mut State,
    spot: Spot,
) -> Result<Option<TypeId>, AllocError> {
    match room.members.arena.expr(spot.number).expr {
        Expr::Field { selector, base } => walk_field(room, within, state, spot, selector, base),
        Expr::Borrow { kind, operand } => {
            let part = walk_operand(room, within, state, operand)?;
            borrow_rule(room, state, spot, kind, part)
        }
        Expr::Let { value, .. } => {
            let of = walk(room, within, state, value, None)?;
            give_type(state, spot.number, of);
            Ok(None)
        }
        Expr::TypedLet {
            annotation,
            value,
            ..
        } => walk_typed_let(room, within, state, spot, annotation, value),
        Expr::Set { place, value } => {
            let of = walk_place(room, within, state, place)?;
            walk(room, within, state, value, of)?;
            set_rule(state, spot)
        }
        Expr::Swap { place, value } => {
            let of = walk_place(room, within, state, place)?;
            walk(room, within, state, value, of)?;
            Ok(swap_rule(state, spot, of))
        }
        Expr::Loop { body } => {
            state.loops.push(false)?;
            walk(room, within, state, body, None)?;
            loop_rule(state, spot)
        }
        _ => walk_outer(room, within, state, spot),
    }
}

/// The type of an expression that leaves what is round it, or gives its value up.
#[cycle(walk)]
fn walk_outer(
    room: &Room,
    within: Within,
    state: &mut State,
    spot: Spot,
) -> Result<Option<TypeId>, AllocError> {
    match room.members.arena.expr(spot.number).expr {
        Expr::Return { value } => {
            walk(room, within, state, value, Some(within.outcome))?;
            never_rule(state, spot)
        }
        Expr::Drop { value } => {
            walk(room, within, state, value, None)?;
            nil_rule(state, spot)
        }
        Expr::Recover { operand } => {
            let inside = Within {
                recover: Some(spot.start),
                ..within
            };
            let of = walk(room, inside, state, operand, None)?;
            recover_rule(state, spot, of)
        }
        Expr::Panic { arguments } => walk_panic(room, within, state, spot, arguments),
        Expr::Arr { items } => walk_array(room, within, state, spot, items),
        _ => walk_called(room, within, state, spot),
    }
}

/// The type of a call or a construction.
#[cycle(walk)]
fn walk_called(
    room: &Room,
    within: Within,
    state: &mut State,
    spot: Spot,
) -> Result<Option<TypeId>, AllocError> {
    match room.members.arena.expr(spot.number).expr {
        Expr::New { arguments, .. } | Expr::NewOf { arguments, .. } => {
            walk_new(room, within, state, spot, arguments)
        }
        Expr::Call {
            name,
            receiver,
            arguments,
        } => walk_call(room, within, state, spot, name, receiver, arguments),
        Expr::Operate {
            operator,
            receiver,
            argument,
        } => walk_operator(room, within, state, spot, operator, receiver, argument),
        Expr::Fn { arguments, .. } => {
            let count = room.members.arena.list(arguments).len();
            let calling = begin_function(room, state, spot, count)?;
            walk_arguments(room, within, state, spot, calling, arguments)
        }
        Expr::Static {
            name,
            arguments,
            ..
        } => {
            let count = room.members.arena.list(arguments).len();
            let calling = begin_static(room, state, spot, name, count)?;
            walk_arguments(room, within, state, spot, calling, arguments)
        }
        _ => Ok(None),
    }
}

/// An expression of which nothing is expected, with its type.
#[cycle(walk)]
fn walk_operand(
    room: &Room,
    within: Within,
    state: &mut State,
    number: ExprId,
) -> Result<Operand, AllocError> {
    let of = walk(room, within, state, number, None)?;
    Ok(Operand { number, of })
}

/// The type of a field, or of what a method without arguments gives.
#[cycle(walk)]
fn walk_field(
    room: &Room,
    within: Within,
    state: &mut State,
    spot: Spot,
    selector: Selector,
    base: ExprId,
) -> Result<Option<TypeId>, AllocError>
    requires { base < spot.number }
{
    let base = walk_operand(room, within, state, base)?;
    match select_member(room, within, state, spot, selector, base)? {
        Selected::Field(of) => Ok(of),
        Selected::Calls(target) => {
            let calling = begin_on(room, within, state, spot, base, target, 0)?;
            finish(room, within, state, spot, calling)
        }
    }
}

/// A `let` with a written type, which its variable has whatever the value is.
#[cycle(walk)]
fn walk_typed_let(
    room: &Room,
    within: Within,
    state: &mut State,
    spot: Spot,
    annotation: WrittenTypeId,
    value: ExprId,
) -> Result<Option<TypeId>, AllocError>
    requires { value < spot.number }
{
    let of = annotation_type(room, within, state, annotation)?;
    walk(room, within, state, value, of)?;
    give_type(state, spot.number, of);
    Ok(None)
}

/// The type of a written place.
#[cycle(walk)]
fn walk_place(
    room: &Room,
    within: Within,
    state: &mut State,
    number: ExprId,
) -> Result<Option<TypeId>, AllocError> {
    let spot = spot_of(room, number, None);
    match room.members.arena.expr(spot.number).expr {
        Expr::Var { .. } => Ok(variable_place(room, state, spot)),
        Expr::Field { selector, base } => {
            let base = walk_operand(room, within, state, base)?;
            field_place(room, within, state, spot, selector, base)
        }
        _ => {
            static_place(state, spot);
            Ok(None)
        }
    }
}

/// The type of a block: that of its last expression, or nil where it has none, which stands at its end.
#[cycle(walk)]
fn walk_block(
    room: &Room,
    within: Within,
    state: &mut State,
    spot: Spot,
    end: u32,
    statements: Children,
) -> Result<Option<TypeId>, AllocError>
    requires { view.AreBefore room.now.members.arena.now spot.number statements }
{
    let list = room.members.arena.list(statements);
    let mut left = list.len();
    let mut last = None;
    let mut is_nil = true;
    for number in list {
        left = left.saturating_sub(1);
        let wanted = if left == 0 { spot.wanted } else { None };
        last = walk(room, within, state, *number, wanted)?;
        is_nil = is_declaration(room, *number);
    }
    if is_nil {
        return nil_rule(state, Spot { start: end, ..spot });
    }
    give_type(state, spot.number, last);
    Ok(last)
}

/// Whether a statement is a `let`.
fn is_declaration(room: &Room, number: ExprId) -> bool {
    matches!(
        room.members.arena.expr(number).expr,
        Expr::Let { .. } | Expr::TypedLet { .. }
    )
}

/// The type of a choice.
#[cycle(walk)]
fn walk_match(
    room: &Room,
    within: Within,
    state: &mut State,
    spot: Spot,
    choice: Choice,
    scrutinee: ExprId,
    arms: Children,
) -> Result<Option<TypeId>, AllocError>
    requires scrutinee { scrutinee < spot.number }
    requires arms { view.AreArmsBefore room.now.members.arena.now spot.number arms }
{
    let condition = condition_wanted(state, choice)?;
    let found = walk(room, within, state, scrutinee, condition)?;
    let matched = condition.or(found);
    let mut found = start_arms(spot.wanted);
    for arm in room.members.arena.arms(arms) {
        pattern_types(
            &room.members,
            &mut state.signed,
            &mut state.typed,
            arm.pattern,
            matched,
        )?;
        if let Some(guard) = arm.guard {
            let pattern = arm.pattern;
            walk_guard(room, within, state, Guard { scrutinee, pattern }, guard)?;
        }
        let of = walk(room, within, state, arm.value, found.wanted())?;
        found = next_arm(&state.signed.types, found, of);
    }
    found.finish(state, spot.number)
}

/// A guard, which is a condition.
#[cycle(walk)]
fn walk_guard(
    room: &Room,
    within: Within,
    state: &mut State,
    guard: Guard,
    condition: ExprId,
) -> Result<(), AllocError> {
    let wanted = condition_wanted(state, Choice::If)?;
    state.guards.push(guard)?;
    walk(room, within, state, condition, wanted)?;
    state.guards.pop();
    Ok(())
}

/// A panic, which takes its text.
#[cycle(walk)]
fn walk_panic(
    room: &Room,
    within: Within,
    state: &mut State,
    spot: Spot,
    arguments: Children,
) -> Result<Option<TypeId>, AllocError>
    requires { view.AreBefore room.now.members.arena.now spot.number arguments }
{
    let list = room.members.arena.list(arguments);
    let wanted = panic_wanted(state, spot, list.len())?;
    for number in list {
        walk(room, within, state, *number, wanted)?;
    }
    never_rule(state, spot)
}

/// The type of an array. Its first item gives that of the items where none is expected.
#[cycle(walk)]
fn walk_array(
    room: &Room,
    within: Within,
    state: &mut State,
    spot: Spot,
    items: Children,
) -> Result<Option<TypeId>, AllocError>
    requires { view.AreBefore room.now.members.arena.now spot.number items }
{
    let list = room.members.arena.list(items);
    let expected = item_wanted(&state.signed.types, spot.wanted);
    let mut item = expected;
    let mut is_first = true;
    for number in list {
        let of = walk(room, within, state, *number, item)?;
        if is_first && expected.is_none() {
            item = of;
        }
        is_first = false;
    }
    array_rule(state, spot, item, is_first)
}

/// The type of a construction.
#[cycle(walk)]
fn walk_new(
    room: &Room,
    within: Within,
    state: &mut State,
    spot: Spot,
    arguments: Children,
) -> Result<Option<TypeId>, AllocError>
    requires { view.AreArgumentsBefore room.now.members.arena.now spot.number arguments }
{
    let list = room.members.arena.arguments(arguments);
    let mut calling = begin_construction(room, state, spot, list.len())?;
    for (index, argument) in list.iter().enumerate() {
        let awaited = next_argument(room, state, &mut calling, index, argument.label)?;
        let of = walk(room, within, state, argument.value, awaited.wanted)?;
        let number = argument.value;
        take_argument(room, state, &mut calling, awaited, Operand { number, of })?;
    }
    finish(room, within, state, spot, calling)
}

/// The type of a call of a method of a value.
#[cycle(walk)]
fn walk_call(
    room: &Room,
    within: Within,
    state: &mut State,
    spot: Spot,
    name: NameId,
    receiver: ExprId,
    arguments: Children,
) -> Result<Option<TypeId>, AllocError>
    requires receiver { receiver < spot.number }
    requires arguments { view.AreBefore room.now.members.arena.now spot.number arguments }
{
    let receiver = walk_operand(room, within, state, receiver)?;
    let count = room.members.arena.list(arguments).len();
    let calling = begin_call(room, within, state, spot, receiver, name, count)?;
    walk_arguments(room, within, state, spot, calling, arguments)
}

/// The type of a call of an operator.
#[cycle(walk)]
fn walk_operator(
    room: &Room,
    within: Within,
    state: &mut State,
    spot: Spot,
    operator: Operator,
    receiver: ExprId,
    argument: ExprId,
) -> Result<Option<TypeId>, AllocError>
    requires receiver { receiver < spot.number }
    requires argument { argument < spot.number }
{
    let receiver = walk_operand(room, within, state, receiver)?;
    let mut calling = begin_operator(room, within, state, spot, receiver, operator)?;
    let awaited = next_argument(room, state, &mut calling, 0, None)?;
    let of = walk(room, within, state, argument, awaited.wanted)?;
    let number = argument;
    take_argument(room, state, &mut calling, awaited, Operand { number, of })?;
    finish(room, within, state, spot, calling)
}

/// The type of a call, by its arguments.
#[cycle(walk)]
fn walk_arguments(
    room: &Room,
    within: Within,
    state: &mut State,
    spot: Spot,
    begun: Option<Calling>,
    arguments: Children,
) -> Result<Option<TypeId>, AllocError>
    requires { view.AreBefore room.now.members.arena.now spot.number arguments }
{
    let list = room.members.arena.list(arguments);
    let mut calling = begun;
    for (index, argument) in list.iter().enumerate() {
        let awaited = next_argument(room, state, &mut calling, index, None)?;
        let number = *argument;
        let of = walk(room, within, state, number, awaited.wanted)?;
        take_argument(room, state, &mut calling, awaited, Operand { number, of })?;
    }
    finish(room, within, state, spot, calling)
}
