//! The types of what goes into a built-in method and comes out of it.
ghost use Rattle.std.specs.Prelude.{◌≡◌, IfOk};
ghost use Rattle.ink_types.specs.Table.{Keeps, type_at};
ghost use Rattle.ink_row_types.specs.Slots as spec;

use ink_base::{BorrowKind, Kind, Slot};
use ink_types::{
    ARRAY, BOOL, BorrowFault, FUTURE, INT, NIL, OPTION, PROMISE, STDOUT, STRING, TUPLE2, TypeId,
    Types,
};
use std::alloc::AllocError;

/// What the type of the receiver is given.
fn item(types: &mut Types) -> Result<TypeId, AllocError>
    ensures keeps { Keeps types.old types.new }
    ensures means { IfOk result (λ t. type_at types.new t ≡ spec.item) }
{
    types.parameter(0)
}

/// A kind without arguments.
fn bare(types: &mut Types, kind: u32) -> Result<TypeId, AllocError>
    ensures keeps { Keeps types.old types.new }
    ensures means { IfOk result (λ t. type_at types.new t ≡ spec.bare kind) }
{
    types.of(kind, &[])
}

/// A kind with one argument.
fn given(types: &mut Types, kind: u32, argument: TypeId) -> Result<TypeId, AllocError>
    ensures keeps { Keeps types.old types.new }
    ensures means { IfOk result (λ t. type_at types.new t ≡ spec.given kind (type_at types.old argument)) }
{
    types.of(kind, &[argument])
}

/// A kind with one argument, the item.
fn of_item(types: &mut Types, kind: u32) -> Result<TypeId, AllocError>
    ensures keeps { Keeps types.old types.new }
    ensures means { IfOk result (λ t. type_at types.new t ≡ spec.given kind spec.item) }
{
    let item = item(types)?;
    given(types, kind, item)
}

/// An Option of a borrow of the item.
fn option_of_borrow(types: &mut Types, kind: BorrowKind) -> Result<TypeId, AllocError>
    ensures keeps { Keeps types.old types.new }
    ensures means { IfOk result (λ t. type_at types.new t ≡ spec.given spec.option (spec.borrow_of_item kind)) }
{
    let item = item(types)?;
    match types.borrow_of(kind, item) {
        Ok(borrow) => given(types, OPTION, borrow),
        Err(BorrowFault::Unborrowable | BorrowFault::OutOfMemory) => Err(AllocError),
    }
}

/// The tuple of a future of the item and its promise.
fn pair(types: &mut Types) -> Result<TypeId, AllocError>
    ensures keeps { Keeps types.old types.new }
    ensures means { IfOk result (λ t. type_at types.new t ≡ spec.pair) }
{
    let future = of_item(types, FUTURE)?;
    let promise = of_item(types, PROMISE)?;
    types.of(TUPLE2, &[future, promise])
}

/// The type of a slot, in which the parameter 0 is what the type of the receiver is given.
///
/// After want of memory the table may have more types than before; what it had stays.
pub fn slot_type(types: &mut Types, slot: Slot) -> Result<TypeId, AllocError>
    ensures keeps { Keeps types.old types.new }
    ensures means { IfOk result (λ t. type_at types.new t ≡ spec.slot_type slot) }
{
    match slot {
        Slot::Int => bare(types, INT),
        Slot::Bool => bare(types, BOOL),
        Slot::Str => bare(types, STRING),
        Slot::Nil => bare(types, NIL),
        Slot::Stdout => bare(types, STDOUT),
        Slot::Item => item(types),
        Slot::Pair => pair(types),
        Slot::OptInt => option_of(types, INT),
        Slot::OptStr => option_of(types, STRING),
        Slot::OptItem => of_item(types, OPTION),
        Slot::OptRef => option_of_borrow(types, BorrowKind::Ref),
        Slot::OptMut => option_of_borrow(types, BorrowKind::Mut),
    }
}

/// An Option of a kind without arguments.
fn option_of(types: &mut Types, kind: u32) -> Result<TypeId, AllocError>
    ensures keeps { Keeps types.old types.new }
    ensures means { IfOk result (λ t. type_at types.new t ≡ spec.given spec.option (spec.bare kind)) }
{
    let inner = bare(types, kind)?;
    given(types, OPTION, inner)
}

/// The type of the receiver of the built-in methods that a type has.
///
/// After want of memory the table may have more types than before; what it had stays.
pub fn receiver_type(types: &mut Types, kind: Kind) -> Result<TypeId, AllocError>
    ensures keeps { Keeps types.old types.new }
    ensures means { IfOk result (λ t. type_at types.new t ≡ spec.receiver_type kind) }
{
    match kind {
        Kind::Int => bare(types, INT),
        Kind::Bool => bare(types, BOOL),
        Kind::Str => bare(types, STRING),
        Kind::Array => of_item(types, ARRAY),
        Kind::Option => of_item(types, OPTION),
        Kind::Future => of_item(types, FUTURE),
        Kind::Promise => of_item(types, PROMISE),
        Kind::Stdout => bare(types, STDOUT),
    }
}
