//! Types that a module has, as entries: plain data.

use crate::built_in::BuiltIn;
use crate::methods::TraitId;
use ink_forms::{Made, NameId, TypeForm, WrittenTypeId};

/// The number of a type among all types of a module, the built-in ones first.
pub type KindId = u32;

/// The name of a type.
#[derive(Clone, Copy)]
pub enum KindName {
    BuiltIn(BuiltIn),
    Declared(NameId),
}

/// A type parameter and the traits that bound it. That of a built-in type has neither a name nor a bound.
#[derive(Drop)]
pub struct TypeParameterEntry {
    pub name: Option<NameId>,
    pub bounds: Vec<TraitId>,
}

/// The type of a field: as it is written, or in a built-in type a parameter of that type.
#[derive(Clone, Copy)]
pub enum FieldType {
    Written(WrittenTypeId),
    Parameter(u32),
}

/// A field. The values of an enum's constructor have no names.
#[derive(Clone, Copy)]
pub struct FieldEntry {
    pub name: Option<NameId>,
    pub of: FieldType,
}

/// A constructor and its fields, in the order of the source. Its name is its own in an enum and else that of its type.
#[derive(Drop)]
pub struct ConstructorEntry {
    pub name: Made,
    pub fields: Vec<FieldEntry>,
}

/// A type. A declared one that isn't an enum has one constructor; of the built-in ones, Option and Result are enums, a
/// tuple has one constructor, and the others have none.
#[derive(Drop)]
pub struct KindEntry {
    pub name: KindName,
    pub form: TypeForm,
    pub parameters: Vec<TypeParameterEntry>,
    pub constructors: Vec<ConstructorEntry>,
}
