//! Fields, and methods that are called without arguments.

use crate::read_only::is_read_only;
use crate::room::{Operand, Room, Spot, State, Within};
use crate::values::{plain, value};
use ink_base::{BorrowKind, Rule};
use ink_findings::Target;
use ink_forms::{Expr, Selector};
use ink_members::{Lookup, Member, Receiver, at_field, part, read_member, seen_part};
use ink_types::TypeId;
use std::alloc::AllocError;

/// What is selected of a base.
#[derive(Clone, Copy)]
pub enum Selected {
    /// A field, whose type stands where it may stand there.
    Field(Option<TypeId>),
    /// A method, which is called.
    Calls(Target),
}

/// A base or receiver as something of which a member is looked up.
pub(crate) fn receiver_of(room: &Room, within: Within, number: u32, of: TypeId) -> Receiver {
    Receiver {
        of,
        is_self: matches!(room.members.arena.expr(number).expr, Expr::SelfValue),
        within: within.method,
    }
}

/// The member that a look-up found. That there isn't one alone is told at its name.
pub(crate) fn found_member(state: &mut State, name: u32, lookup: Lookup) -> Option<Member> {
    match lookup {
        Lookup::Found(member) => Some(member),
        Lookup::Several | Lookup::Absent => {
            state.signed.least.break_at(Rule::UnknownMember, name);
            None
        }
    }
}

/// What a selector means where it is read.
fn look_up(
    room: &Room,
    state: &mut State,
    receiver: Receiver,
    selector: Selector,
) -> Result<Lookup, AllocError> {
    let signatures = &state.signed.signatures;
    let types = &mut state.signed.types;
    match selector {
        Selector::Field(name) => at_field(&room.members, signatures, types, receiver, name),
        Selector::Named(name) => read_member(&room.members, signatures, types, receiver, name),
        Selector::Part(integer) => Ok(part(&room.members, types, receiver.of, integer)),
    }
}

/// A field of this declared type, as it is seen through its base.
fn field_rule(
    room: &Room,
    within: Within,
    state: &mut State,
    spot: Spot,
    base: u32,
    of: TypeId,
) -> Result<Option<TypeId>, AllocError> {
    let kind = if is_read_only(room, within, state, base) {
        BorrowKind::Ref
    } else {
        BorrowKind::Mut
    };
    let of = seen_part(&mut state.signed.types, kind, of)?;
    Ok(value(state, spot, plain(of)))
}

/// What is selected of a base, where it is read.
pub fn select_member(
    room: &Room,
    within: Within,
    state: &mut State,
    spot: Spot,
    selector: Selector,
    base: Operand,
) -> Result<Selected, AllocError> {
    let Some(of) = base.of else {
        return Ok(Selected::Field(None));
    };
    let receiver = receiver_of(room, within, base.number, of);
    let lookup = look_up(room, state, receiver, selector)?;
    match found_member(state, spot.place, lookup) {
        Some(Member::Field { of, .. }) => {
            let of = field_rule(room, within, state, spot, base.number, of)?;
            Ok(Selected::Field(of))
        }
        Some(Member::Calls(target)) => Ok(Selected::Calls(target)),
        None => Ok(Selected::Field(None)),
    }
}
