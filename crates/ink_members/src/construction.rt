//! What is made.
ghost use Rattle.std.specs.Prelude.{◌≡◌};

use crate::fields::declared_field;
use crate::room::MemberRoom;
use ink_forms::{NameId, TypeForm};
use ink_names::{KindEntry, KindId, KindName, Tables};
use ink_signatures::Signatures;
use ink_types::{NEVER, TypeId, Types};
use std::alloc::AllocError;

/// A constructor, over the type parameters of its type.
#[derive(Clone, Copy)]
pub struct Construction {
    pub kind: KindId,
    /// The place of the constructor in its type.
    pub index: u32,
    pub form: TypeForm,
    /// Whether the module declares the type. The arguments of a built-in one may be unborrowable.
    pub is_declared: bool,
    /// How many fields are given.
    pub fields: usize,
    /// The type with its own parameters.
    pub of: TypeId,
    pub type_parameters: usize,
}

/// How many fields a constructor has.
fn field_count(entry: &KindEntry, index: u32) -> usize {
    match entry.constructors.get(index as usize) {
        Some(made) => made.fields.len(),
        None => 0,
    }
}

/// Each kind as a type with its own parameters.
fn own_type(room: &MemberRoom, types: &mut Types, kind: KindId) -> Result<TypeId, AllocError>
    ensures kinds { types.new.kinds ≡ types.old.kinds }
{
    match room.own_types.get(kind as usize) {
        Some(own) => Ok(*own),
        None => types.of(NEVER, &[]),
    }
}

/// What the constructor at this place of a kind makes. There is none where there is no such kind.
pub fn construction_of(
    room: &MemberRoom,
    types: &mut Types,
    kind: KindId,
    index: u32,
) -> Result<Option<Construction>, AllocError>
    ensures kinds { types.new.kinds ≡ types.old.kinds }
{
    let Some(entry) = room.tables.kind(kind) else {
        return Ok(None);
    };
    let of = own_type(room, types, kind)?;
    Ok(Some(Construction {
        kind,
        index,
        form: entry.form,
        is_declared: matches!(entry.name, KindName::Declared(_)),
        fields: field_count(entry, index),
        of,
        type_parameters: entry.parameters.len(),
    }))
}

/// The type of the field at this place of a constructor, over the type parameters of its type. There is none where there is
/// no such field.
pub fn constructed_field(
    room: &MemberRoom,
    signatures: &Signatures,
    types: &mut Types,
    kind: KindId,
    index: u32,
    place: usize,
) -> Result<Option<TypeId>, AllocError>
    ensures kinds { types.new.kinds ≡ types.old.kinds }
{
    declared_field(room, signatures, types, kind, index, place)
}

/// The place of the field that a named argument is for. The fields of an enum's constructors have no names.
pub fn field_place(tables: &Tables, kind: KindId, name: NameId) -> Option<u32> {
    tables.field(kind, name)
}
