//! The rule on written types.

use crate::room::Room;
use ink_base::Rule;
use ink_forms::{Prefix, WrittenType, WrittenTypeId};
use ink_names::{Least, Resolution};
use ink_types::{FUTURE, PROMISE};

/// Whether a written type without a prefix is that of a future or of a promise.
fn is_unborrowable(room: Room, bare: WrittenTypeId) -> bool {
    match room.sight.resolutions.get(bare) {
        Resolution::Kind(kind) => kind == FUTURE || kind == PROMISE,
        _ => false,
    }
}

/// Whether a node is a borrow that is written of a type that can't be borrowed. Of these no `uni T` has a further prefix.
fn is_borrow_of_unborrowable(room: Room, written: WrittenType) -> bool {
    match written {
        WrittenType::Prefixed { prefix, bare } => match prefix {
            Prefix::Ref | Prefix::Mut => is_unborrowable(room, bare),
            Prefix::Uni => false,
        },
        _ => false,
    }
}

/// No borrow is written of a future or of a promise, in signatures and in bodies.
pub(crate) fn judge_written(room: Room, least: &mut Least) {
    for number in 0..room.sight.arena.len() {
        let node = room.sight.arena.written(number as u32);
        if is_borrow_of_unborrowable(room, node.written) {
            least.break_at(Rule::BorrowOfUni, node.start);
        }
    }
}
