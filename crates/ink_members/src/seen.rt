//! How parts of a value are seen through it.
ghost use Rattle.std.specs.Prelude.{◌≡◌};

use crate::receiver::kind_of;
use crate::room::MemberRoom;
use ink_base::BorrowKind;
use ink_forms::Mode;
use ink_names::{Home, KindId, MethodEntry, MethodNumber};
use ink_types::{BorrowFault, TypeId, Types};
use std::alloc::AllocError;

/// A part as it is seen through a borrow of the whole: one of a value type or an unborrowable type as it is, and any other
/// as that borrow of it. So a part that is a borrow is itself below a `mut`, and below a `ref` it is a `ref`.
pub fn seen_part(types: &mut Types, kind: BorrowKind, of: TypeId) -> Result<TypeId, AllocError>
    ensures kinds { types.new.kinds ≡ types.old.kinds }
{
    match types.borrow_of(kind, of) {
        Ok(borrow) => Ok(borrow),
        Err(BorrowFault::Unborrowable) => Ok(of),
        Err(BorrowFault::OutOfMemory) => Err(AllocError),
    }
}

/// The type in whose braces a method stands.
fn home_kind(home: Home) -> Option<KindId> {
    match home {
        Home::Module => None,
        Home::Type(kind) => Some(kind),
        Home::Impl { kind, .. } => Some(kind),
    }
}

/// The type of `self` in a method of this type. In an async type it is the process reference, in each kind of method.
fn seen_self(types: &mut Types, mode: Mode, own: TypeId) -> Result<Option<TypeId>, AllocError>
    ensures kinds { types.new.kinds ≡ types.old.kinds }
{
    match mode {
        Mode::Plain => Ok(Some(seen_part(types, BorrowKind::Ref, own)?)),
        Mode::Mut => Ok(Some(seen_part(types, BorrowKind::Mut, own)?)),
        Mode::Move => Ok(Some(own)),
        Mode::Static => Ok(None),
    }
}

/// The type of `self` in a method, where it has one.
pub fn self_type(
    room: &MemberRoom,
    types: &mut Types,
    method: MethodNumber,
) -> Result<Option<TypeId>, AllocError>
    ensures kinds { types.new.kinds ≡ types.old.kinds }
{
    let Some(entry) = room.tables.method(method) else {
        return Ok(None);
    };
    let Some(kind) = home_kind(entry.home) else {
        return Ok(None);
    };
    match room.own_types.get(kind as usize) {
        Some(own) => seen_self(types, entry.mode, *own),
        None => Ok(None),
    }
}
