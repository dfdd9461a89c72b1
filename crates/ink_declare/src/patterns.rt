//! The names of patterns: the variables that they bind, and constructors.
ghost use Rattle.ink_forms.specs.Views as view;

use crate::duplicates::NameList;
use crate::state::{Room, State};
use crate::words::built_in_constructor;
use ink_forms::{Children, Made, NameId, Pattern, PatternId};
use ink_names::Resolution;
use std::alloc::AllocError;

/// Binds a name in the pattern whose scope begins at this depth. The first node of a pattern that binds a name declares
/// the variable, and each other one, as in another alternative, stands for it.
fn bind_name(
    state: &mut State,
    depth: usize,
    number: PatternId,
    name: NameId,
) -> Result<(), AllocError> {
    if let Some(first) = state.variables.find_from(depth, name) {
        state.resolutions.put(number, Resolution::Variable(first));
        return Ok(());
    }
    state.resolutions.put(number, Resolution::Variable(number));
    state.variables.declare(name, number)
}

/// The constructor of a pattern. Of a declared enum some one has to have it; which one rests on what is matched.
fn constructor(room: &Room, state: &mut State, number: PatternId, place: u32, made: Made) {
    if let Made::Named(name) = made {
        if !room.known.constructors.contains(&name) {
            state.break_unknown(place);
        }
        return;
    }
    if let Some((kind, index)) = built_in_constructor(made) {
        let kind = kind.kind();
        state
            .resolutions
            .put(number, Resolution::Constructor { kind, index });
    }
}

/// The names of a pattern, whose variables are in scope behind it.
#[cycle(bind)]
pub(crate) fn bind(
    room: &Room,
    state: &mut State,
    depth: usize,
    number: PatternId,
) -> Result<(), AllocError> {
    let node = room.arena.pattern(number);
    match node.pattern {
        Pattern::Wildcard => Ok(()),
        Pattern::Lit { .. } => Ok(()),
        Pattern::Name { name, .. } => bind_name(state, depth, number, name),
        Pattern::Constructor { made, parts } => {
            constructor(room, state, number, node.start, made);
            bind_all(room, state, depth, number, parts)
        }
        Pattern::Either { alternatives } => bind_all(room, state, depth, number, alternatives),
        Pattern::Fields { fields } => bind_fields(room, state, depth, number, fields),
    }
}

/// The names of some patterns.
#[cycle(bind)]
fn bind_all(
    room: &Room,
    state: &mut State,
    depth: usize,
    parent: PatternId,
    parts: Children,
) -> Result<(), AllocError>
    requires { view.AreBefore room.now.arena.now parent parts }
{
    for part in room.arena.list(parts) {
        bind(room, state, depth, *part)?;
    }
    Ok(())
}

/// The names of field patterns, each of another field.
#[cycle(bind)]
fn bind_fields(
    room: &Room,
    state: &mut State,
    depth: usize,
    parent: PatternId,
    fields: Children,
) -> Result<(), AllocError>
    requires { view.AreFieldsBefore room.now.arena.now parent fields }
{
    let mut list = NameList::new(room.alloc);
    for field in room.arena.fields(fields) {
        list.add(&mut state.least, field.field.name, field.field.place)?;
        bind(room, state, depth, field.pattern)?;
    }
    Ok(())
}
