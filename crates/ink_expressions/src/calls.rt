//! Calls and constructions: what begins them, each argument, and what they come to.

use crate::fields::{found_member, receiver_of};
use crate::parameters::{Called, arguments_hold, is_fresh, parameter};
use crate::read_only::is_read_only;
use crate::room::{Operand, Room, Spot, State, Within};
use crate::values::{assignable, call, plain, value};
use ink_base::Rule;
use ink_crossing::{Sight, is_crossing};
use ink_findings::{Found, Target, Typed};
use ink_forms::{Arena, ExprId, Identifier, Mode, NameId, Operator, TypeForm};
use ink_inference::{Inference, Outcome};
use ink_members::{
    Callee, Lookup, Member, call_member, callee_of, construction_of, given_arguments,
    operator_member, static_member,
};
use ink_names::{KindId, Resolution, Resolutions};
use ink_types::{TypeId, Types};
use std::alloc::AllocError;

/// An argument whose parameter's type was open at its turn.
#[derive(Clone, Copy)]
struct LateArgument {
    number: ExprId,
    parameter: TypeId,
}

/// A call or a construction whose arguments are walked.
#[derive(Drop)]
pub struct Calling {
    called: Called,
    inherited: u32,
    inference: Inference,
    /// What it gives, over its type parameters.
    outcome: TypeId,
    /// Whether there are as many arguments as parameters.
    is_counted: bool,
    /// Whether a rule is broken that is judged without the arguments.
    is_broken: bool,
    /// Whether what it gives is unique, where it may be sent.
    is_unique: bool,
    late: Vec<LateArgument>,
}

/// What an argument is for.
#[derive(Clone, Copy)]
pub struct Awaited {
    parameter: Option<TypeId>,
    is_open: bool,
    /// The type that is expected of it.
    pub wanted: Option<TypeId>,
}

/// The target of a look-up. That there isn't one alone is told at its name.
fn target_of(state: &mut State, name: u32, lookup: Lookup) -> Option<Target> {
    match found_member(state, name, lookup)? {
        Member::Calls(target) => Some(target),
        Member::Field { .. } => None,
    }
}

/// The number of arguments is that of the parameters.
fn is_counted(state: &mut State, byte: u32, count: usize, parameters: usize) -> bool {
    let holds = count == parameters;
    if !holds {
        state.signed.least.break_at(Rule::ArgumentCount, byte);
    }
    holds
}

/// Begins a call with the type arguments that a receiver gives.
fn begin(
    room: &Room,
    state: &mut State,
    spot: Spot,
    target: Target,
    callee: Callee,
    given: &[TypeId],
    count: usize,
) -> Result<Calling, AllocError> {
    let alloc = room.members.alloc;
    let mut inference = Inference::new(alloc, given, callee.type_parameters)?;
    inference.expect(&state.signed.types, callee.result, spot.wanted);
    let is_counted = is_counted(state, spot.place, count, callee.parameters);
    Ok(Calling {
        called: Called::Target(target),
        inherited: callee.inherited,
        inference,
        outcome: callee.result,
        is_counted,
        is_broken: !is_counted,
        is_unique: false,
        late: Vec::new(alloc),
    })
}

/// Whether a call changes its receiver, which is no message.
fn is_changing(callee: Callee) -> bool {
    matches!(callee.mode, Mode::Mut) && !callee.is_async
}

/// Whether a call on this receiver crosses into a unique value.
fn crosses<'a>(
    arena: &'a Arena,
    resolutions: &'a Resolutions,
    typed: &'a Typed,
    types: &'a Types,
    recover: Option<u32>,
    receiver: ExprId,
) -> bool {
    let sight = Sight {
        arena,
        resolutions,
        typed,
        types,
    };
    is_crossing(sight, recover, receiver)
}

/// Begins a call of what a receiver has.
pub fn begin_on(
    room: &Room,
    within: Within,
    state: &mut State,
    spot: Spot,
    receiver: Operand,
    target: Target,
    count: usize,
) -> Result<Option<Calling>, AllocError> {
    let Some(of) = receiver.of else {
        return Ok(None);
    };
    let callee = callee_of(
        &room.members,
        &state.signed.signatures,
        &mut state.signed.types,
        target,
    )?;
    let given = given_arguments(&room.members, &state.signed.types, target, of)?;
    let mut calling = begin(room, state, spot, target, callee, &given, count)?;
    if is_changing(callee) && is_read_only(room, within, state, receiver.number) {
        state.signed.least.break_at(Rule::NotMutable, spot.place);
        calling.is_broken = true;
    }
    if is_fresh(target) {
        calling.is_unique = crosses(
            room.members.arena,
            room.members.resolutions,
            &state.typed,
            &state.signed.types,
            within.recover,
            receiver.number,
        );
    }
    Ok(Some(calling))
}

/// Begins a call of a method of a value.
pub fn begin_call(
    room: &Room,
    within: Within,
    state: &mut State,
    spot: Spot,
    receiver: Operand,
    name: NameId,
    count: usize,
) -> Result<Option<Calling>, AllocError> {
    let Some(of) = receiver.of else {
        return Ok(None);
    };
    let sought = receiver_of(room, within, receiver.number, of);
    let lookup = call_member(&room.members, &state.signed.types, sought, name);
    match target_of(state, spot.place, lookup) {
        Some(target) => begin_on(room, within, state, spot, receiver, target, count),
        None => Ok(None),
    }
}

/// Begins a call of an operator.
pub fn begin_operator(
    room: &Room,
    within: Within,
    state: &mut State,
    spot: Spot,
    receiver: Operand,
    operator: Operator,
) -> Result<Option<Calling>, AllocError> {
    let Some(of) = receiver.of else {
        return Ok(None);
    };
    let lookup = operator_member(&state.signed.types, of, operator);
    match target_of(state, spot.place, lookup) {
        Some(target) => begin_on(room, within, state, spot, receiver, target, 1),
        None => Ok(None),
    }
}

/// Begins a call without a receiver.
fn begin_without(
    room: &Room,
    state: &mut State,
    spot: Spot,
    target: Target,
    count: usize,
) -> Result<Option<Calling>, AllocError> {
    let callee = callee_of(
        &room.members,
        &state.signed.signatures,
        &mut state.signed.types,
        target,
    )?;
    let calling = begin(room, state, spot, target, callee, &[], count)?;
    Ok(Some(calling))
}

/// Begins a call of a method of the module.
pub fn begin_function(
    room: &Room,
    state: &mut State,
    spot: Spot,
    count: usize,
) -> Result<Option<Calling>, AllocError> {
    match room.members.resolutions.get(spot.number) {
        Resolution::Method(method) => {
            begin_without(room, state, spot, Target::Method(method), count)
        }
        _ => Ok(None),
    }
}

/// Begins a call of a static method.
pub fn begin_static(
    room: &Room,
    state: &mut State,
    spot: Spot,
    name: NameId,
    count: usize,
) -> Result<Option<Calling>, AllocError> {
    let owner = room.members.resolutions.get(spot.number);
    let lookup = static_member(&room.members, owner, name);
    match target_of(state, spot.place, lookup) {
        Some(target) => begin_without(room, state, spot, target, count),
        None => Ok(None),
    }
}

/// Begins to make an object by the constructor at this place of a kind.
fn begin_making(
    room: &Room,
    state: &mut State,
    spot: Spot,
    kind: KindId,
    index: u32,
    count: usize,
) -> Result<Option<Calling>, AllocError> {
    let alloc = room.members.alloc;
    let Some(made) = construction_of(&room.members, &mut state.signed.types, kind, index)? else {
        return Ok(None);
    };
    let open = made.type_parameters.min(u32::MAX as usize) as u32;
    let mut inference = Inference::new(alloc, &[], open)?;
    inference.expect(&state.signed.types, made.of, spot.wanted);
    let is_counted = is_counted(state, spot.place, count, made.fields);
    Ok(Some(Calling {
        called: Called::Made(made),
        inherited: 0,
        inference,
        outcome: made.of,
        is_counted,
        is_broken: !is_counted,
        is_unique: false,
        late: Vec::new(alloc),
    }))
}

/// Begins a construction.
pub fn begin_construction(
    room: &Room,
    state: &mut State,
    spot: Spot,
    count: usize,
) -> Result<Option<Calling>, AllocError> {
    match room.members.resolutions.get(spot.number) {
        Resolution::Constructor { kind, index } => {
            begin_making(room, state, spot, kind, index, count)
        }
        _ => Ok(None),
    }
}

/// What nothing is expected of.
fn anything() -> Awaited {
    Awaited {
        parameter: None,
        is_open: false,
        wanted: None,
    }
}

/// What an argument is for whose parameter is of this type.
fn expected_argument(
    room: &Room,
    state: &mut State,
    calling: &Calling,
    parameter: TypeId,
) -> Result<Awaited, AllocError> {
    let types = &mut state.signed.types;
    let wanted = calling
        .inference
        .put_in(room.members.alloc, types, parameter)?;
    Ok(Awaited {
        parameter: Some(parameter),
        is_open: wanted.is_none(),
        wanted,
    })
}

/// What the argument at this index is for, by its name if it has one. An unknown name is told.
pub fn next_argument(
    room: &Room,
    state: &mut State,
    calling: &mut Option<Calling>,
    index: usize,
    label: Option<Identifier>,
) -> Result<Awaited, AllocError> {
    let Some(calling) = calling else {
        return Ok(anything());
    };
    let found = parameter(room, state, calling.called, index, label)?;
    if !calling.is_counted {
        return Ok(anything());
    }
    match found {
        Some(found) => expected_argument(room, state, calling, found),
        None => {
            calling.is_broken = true;
            calling.inference.lose();
            Ok(anything())
        }
    }
}

/// Whether a process is made, whose arguments go with a message.
fn is_spawned(called: Called) -> bool {
    match called {
        Called::Made(made) => matches!(made.form, TypeForm::Async),
        Called::Target(_) => false,
    }
}

/// What goes to a new process is sendable, by its own type.
fn is_sent(room: &Room, state: &mut State, argument: ExprId) {
    if let Some(of) = state.typed.type_of(argument) {
        if !state.signed.types.sendable(of) {
            let byte = room.members.arena.expr(argument).start;
            state.signed.least.break_at(Rule::AsyncNotSendable, byte);
        }
    }
}

/// Takes an argument: what is found from it where the type of its parameter was open.
pub fn take_argument(
    room: &Room,
    state: &mut State,
    calling: &mut Option<Calling>,
    awaited: Awaited,
    argument: Operand,
) -> Result<(), AllocError> {
    let Some(calling) = calling else {
        return Ok(());
    };
    if is_spawned(calling.called) {
        is_sent(room, state, argument.number);
    }
    match awaited.parameter {
        Some(parameter) if awaited.is_open => {
            let types = &state.signed.types;
            calling.inference.learn(types, parameter, argument.of);
            calling.late.push(LateArgument {
                number: argument.number,
                parameter,
            })?;
        }
        _ => {}
    }
    Ok(())
}

/// Whether an argument whose parameter was open may stand there, as far as that is found by now.
fn late_holds(
    room: &Room,
    state: &mut State,
    inference: &Inference,
    late: LateArgument,
) -> Result<bool, AllocError> {
    let alloc = room.members.alloc;
    let wanted = inference.put_in(alloc, &mut state.signed.types, late.parameter)?;
    let start = room.members.arena.expr(late.number).start;
    match state.typed.type_of(late.number) {
        Some(of) => Ok(assignable(state, start, wanted, of)),
        None => Ok(true),
    }
}

/// Whether all arguments whose parameters were open may stand there.
fn all_late_hold(room: &Room, state: &mut State, calling: &Calling) -> Result<bool, AllocError> {
    let mut hold = true;
    for late in &calling.late {
        let holds = late_holds(room, state, &calling.inference, *late)?;
        hold = hold && holds;
    }
    Ok(hold)
}

/// What was found of a call or a construction.
fn found_of(called: Called, of: TypeId) -> Found {
    match called {
        Called::Target(target) => call(of, target),
        Called::Made(_) => plain(of),
    }
}

/// The type of what a call gives with these type arguments.
fn outcome_type(
    state: &mut State,
    calling: &Calling,
    arguments: &[TypeId],
) -> Result<TypeId, AllocError> {
    let types = &mut state.signed.types;
    let of = types.substitute(calling.outcome, arguments)?;
    match arguments.first() {
        Some(item) if calling.is_unique && types.sendable(*item) => types.unique_of(of),
        _ => Ok(of),
    }
}

/// A call whose type arguments are found.
fn found_call(
    room: &Room,
    within: Within,
    state: &mut State,
    spot: Spot,
    calling: &Calling,
) -> Result<Option<TypeId>, AllocError> {
    let alloc = room.members.alloc;
    let arguments = calling.inference.arguments(alloc, &mut state.signed.types)?;
    let hold = arguments_hold(
        room,
        within,
        state,
        spot.place,
        calling.called,
        calling.inherited,
        &arguments,
    );
    let of = outcome_type(state, calling, &arguments)?;
    if !arguments.is_empty() {
        state.arguments.put(alloc, spot.number, &arguments)?;
    }
    let of = value(state, spot, found_of(calling.called, of));
    if hold && !calling.is_broken {
        Ok(of)
    } else {
        Ok(None)
    }
}

/// What a call or a construction comes to, behind its arguments.
pub fn finish(
    room: &Room,
    within: Within,
    state: &mut State,
    spot: Spot,
    calling: Option<Calling>,
) -> Result<Option<TypeId>, AllocError> {
    let Some(calling) = calling else {
        return Ok(None);
    };
    if !all_late_hold(room, state, &calling)? {
        return Ok(None);
    }
    match calling.inference.outcome() {
        Outcome::Found => found_call(room, within, state, spot, &calling),
        Outcome::Open => {
            let least = &mut state.signed.least;
            least.break_at(Rule::NeedsAnnotation, spot.place);
            Ok(None)
        }
        Outcome::Lost => Ok(None),
    }
}
