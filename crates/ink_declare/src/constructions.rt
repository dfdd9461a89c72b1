//! The names of what is made.

use crate::state::{Owner, Room, State};
use crate::words::built_in_constructor;
use ink_forms::{ExprId, Made, NameId, TypeForm};
use ink_names::{KindEntry, KindId, KindName, Resolution};

/// Whether a type is made by its own name: a declared one that isn't an enum.
fn is_made_by_name(entry: &KindEntry) -> bool {
    let is_declared = matches!(entry.name, KindName::Declared(_));
    is_declared && !matches!(entry.form, TypeForm::Enum)
}

/// The type that a name with a capital letter stands for where something is made. `Self` and a type parameter stand for
/// none there.
fn kind_named(room: &Room, owner: Owner, state: &State, name: NameId) -> Option<KindId> {
    if state.parameter(room.known, owner, name).is_some() {
        return None;
    }
    room.known.kind(name)
}

/// The type that is made by its own name.
fn kind_made(room: &Room, owner: Owner, state: &State, name: NameId) -> Option<KindId> {
    let kind = kind_named(room, owner, state, name)?;
    let entry = room.tables.kind(kind)?;
    if is_made_by_name(entry) {
        Some(kind)
    } else {
        None
    }
}

/// What is made by one name. Where nothing of that name can be made, the rule is broken at this byte.
pub(crate) fn constructed(
    room: &Room,
    owner: Owner,
    state: &mut State,
    number: ExprId,
    place: u32,
    made: Made,
) {
    let found = match made {
        Made::Named(name) => match kind_made(room, owner, state, name) {
            Some(kind) => Some(Resolution::Constructor { kind, index: 0 }),
            None => None,
        },
        _ => match built_in_constructor(made) {
            Some((built_in, index)) => {
                let kind = built_in.kind();
                Some(Resolution::Constructor { kind, index })
            }
            None => None,
        },
    };
    state.resolve(number, place, found);
}

/// What is made by a type's name and a constructor's. Where the first stands for no type, the rule is broken there, and
/// where the type has no such constructor, at the second.
pub(crate) fn constructed_of(
    room: &Room,
    owner: Owner,
    state: &mut State,
    number: ExprId,
    type_name: NameId,
    name: NameId,
) {
    let node = room.arena.expr(number);
    match kind_named(room, owner, state, type_name) {
        Some(kind) => {
            let found = match room.tables.constructor(kind, name) {
                Some(index) => Some(Resolution::Constructor { kind, index }),
                None => None,
            };
            state.resolve(number, node.place, found);
        }
        None => state.break_unknown(node.start),
    }
}
