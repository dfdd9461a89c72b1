//! The names of written types.
ghost use Rattle.ink_forms.specs.Views as view;

use crate::known::Known;
use crate::state::{Owner, Room, State};
use crate::words::is_word;
use ink_forms::{Children, NameId, WrittenType, WrittenTypeId};
use ink_names::Resolution;

/// What `Self` stands for in these braces.
fn self_type(owner: Owner) -> Option<Resolution> {
    match owner {
        Owner::Module => None,
        Owner::Kind(kind) => Some(Resolution::SelfType(kind)),
        Owner::Trait => Some(Resolution::TypeParameter(0)),
    }
}

/// What a type's name stands for in these braces: a type parameter before a type, and the method's before the type's.
pub(crate) fn type_named(
    known: &Known,
    owner: Owner,
    state: &State,
    name: NameId,
) -> Option<Resolution> {
    if let Some(number) = state.parameter(known, owner, name) {
        return Some(Resolution::TypeParameter(number));
    }
    if is_word(known.words.self_type, name) {
        return self_type(owner);
    }
    match known.kind(name) {
        Some(kind) => Some(Resolution::Kind(kind)),
        None => None,
    }
}

/// The names of a written type.
#[cycle(written_names)]
pub(crate) fn written_names(room: &Room, owner: Owner, state: &mut State, number: WrittenTypeId) {
    let node = room.arena.written(number);
    match node.written {
        WrittenType::Named { name, arguments } => {
            let found = type_named(room.known, owner, state, name);
            state.resolve(number, node.start, found);
            all_written(room, owner, state, number, arguments);
        }
        WrittenType::Prefixed { bare, .. } => written_names(room, owner, state, bare),
        WrittenType::Tuple { parts } => all_written(room, owner, state, number, parts),
    }
}

/// The names of some written types.
#[cycle(written_names)]
fn all_written(room: &Room, owner: Owner, state: &mut State, parent: u32, children: Children)
    requires { view.AreBefore room.now.arena.now parent children }
{
    for child in room.arena.list(children) {
        written_names(room, owner, state, *child);
    }
}

/// The names of some written types that are no node's children.
pub(crate) fn written_list(
    room: &Room,
    owner: Owner,
    state: &mut State,
    numbers: &[WrittenTypeId],
) {
    for number in numbers {
        written_names(room, owner, state, *number);
    }
}
