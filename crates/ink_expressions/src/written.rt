//! Written types of bodies, and the variables that a `let` declares.

use crate::room::{Room, State, Within};
use crate::values::plain;
use ink_forms::WrittenTypeId;
use ink_signatures::{Owner, Site, written_type};
use ink_types::TypeId;
use std::alloc::AllocError;

/// The type that is written in a body. There is none where it breaks a rule.
pub fn annotation_type(
    room: &Room,
    within: Within,
    state: &mut State,
    annotation: WrittenTypeId,
) -> Result<Option<TypeId>, AllocError> {
    let site = Site {
        owner: Owner::Method(within.method),
        is_in_body: true,
    };
    let judged = written_type(&room.written, site, &mut state.signed, annotation)?;
    if judged.holds {
        Ok(Some(judged.of))
    } else {
        Ok(None)
    }
}

/// Gives a node its type: a variable at the node that declares it, or an expression that has the type of another.
pub fn give_type(state: &mut State, number: u32, of: Option<TypeId>) {
    if let Some(of) = of {
        state.typed.put(number, plain(of));
    }
}

/// The type of a written type that was judged before.
pub fn written_at(state: &State, written: Option<WrittenTypeId>) -> Option<TypeId> {
    state.signed.signatures.type_of(written?)
}
