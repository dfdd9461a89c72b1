//! The built-in methods by the types of their receivers.

use crate::room::{Lookup, Member};
use ink_base::Mode as RowMode;
use ink_findings::Target;
use ink_forms::{Mode, Operator};
use ink_names::KindId;
use ink_prims::{Row, number_of, row_at};
use ink_row_types::row_kind_of;
use ink_types::{TypeId, Types};

/// How many rows there are.
const ROW_COUNT: u32 = 48;

/// The row of a number.
pub(crate) fn row_of(number: u32) -> Option<Row> {
    if number < ROW_COUNT {
        Some(row_at(number))
    } else {
        None
    }
}

/// How a row takes its receiver, as methods with a body do.
pub(crate) fn mode_of_row(mode: RowMode) -> Mode {
    match mode {
        RowMode::Read => Mode::Plain,
        RowMode::Mutate => Mode::Mut,
        RowMode::Move => Mode::Move,
        RowMode::Static => Mode::Static,
    }
}

/// The number of the row that a kind has by a name.
fn row_named(kind: KindId, name: &[u8]) -> Option<u32> {
    number_of(name, row_kind_of(kind)?)
}

/// Whether a row is static.
fn is_static(row: &Row) -> bool {
    matches!(row.mode, RowMode::Static)
}

/// Whether the items of a type can't be borrowed.
fn has_unborrowable_items(types: &Types, of: TypeId) -> bool {
    match types.argument(of, 0) {
        Some(item) => types.is_unborrowable(item),
        None => false,
    }
}

/// Whether a value of this type has a row. A static one is none of a value, and one whose result may borrow from the
/// receiver isn't there where the items can't be borrowed.
fn has_row(types: &Types, bare: TypeId, number: u32) -> bool {
    match row_of(number) {
        Some(row) => !is_static(&row) && !(row.borrows && has_unborrowable_items(types, bare)),
        None => false,
    }
}

/// Whether a row is there and static.
fn is_static_row(number: u32) -> bool {
    match row_of(number) {
        Some(row) => is_static(&row),
        None => false,
    }
}

/// A row that is called, or nothing.
fn called(number: u32, is_there: bool) -> Lookup {
    if is_there {
        Lookup::Found(Member::Calls(Target::Row(number)))
    } else {
        Lookup::Absent
    }
}

/// What a name means among the built-in methods of a value of this type, which has no borrow and no `uni`.
pub(crate) fn value_row(types: &Types, bare: TypeId, kind: KindId, name: &[u8]) -> Lookup {
    match row_named(kind, name) {
        Some(number) => called(number, has_row(types, bare, number)),
        None => Lookup::Absent,
    }
}

/// What a name means among the static built-in methods of a kind.
pub(crate) fn static_row(kind: KindId, name: &[u8]) -> Lookup {
    match row_named(kind, name) {
        Some(number) => called(number, is_static_row(number)),
        None => Lookup::Absent,
    }
}

/// How an operator is written.
pub(crate) fn spelling(operator: Operator) -> &'static [u8] {
    match operator {
        Operator::Add => b"+",
        Operator::Subtract => b"-",
        Operator::Multiply => b"*",
        Operator::Divide => b"/",
        Operator::Remainder => b"%",
        Operator::Equal => b"==",
        Operator::NotEqual => b"!=",
        Operator::Less => b"<",
        Operator::LessOrEqual => b"<=",
        Operator::Greater => b">",
        Operator::GreaterOrEqual => b">=",
        Operator::And => b"&",
        Operator::Or => b"|",
        Operator::ExclusiveOr => b"^",
        Operator::ShiftLeft => b"<<",
        Operator::ShiftRight => b">>",
    }
}
