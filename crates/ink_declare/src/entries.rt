//! The entries of types, built-in and declared.

use crate::builder::{Builder, number_behind};
use crate::duplicates::NameList;
use crate::signatures::{add_member, type_parameters};
use ink_forms::{Made, Member, NameId, TypeDeclaration, TypeForm, WrittenTypeId};
use ink_names::{
    BUILT_INS, BuiltIn, ConstructorEntry, FieldEntry, FieldType, Home, KindEntry, KindId, KindName,
    TypeParameterEntry,
};
use std::alloc::{AllocError, Global};

/// So many type parameters without names.
fn nameless(alloc: Global, count: u32) -> Result<Vec<TypeParameterEntry>, AllocError> {
    let mut entries = Vec::new(alloc);
    for _ in 0..count {
        entries.push(TypeParameterEntry {
            name: None,
            bounds: Vec::new(alloc),
        })?;
    }
    Ok(entries)
}

/// A constructor of a built-in type, whose fields have these of its type parameters as their types.
fn built_in_entry(
    alloc: Global,
    name: Made,
    parameters: &[u32],
) -> Result<ConstructorEntry, AllocError> {
    let mut fields = Vec::new(alloc);
    for parameter in parameters {
        fields.push(FieldEntry {
            name: None,
            of: FieldType::Parameter(*parameter),
        })?;
    }
    Ok(ConstructorEntry { name, fields })
}

/// The constructors of a built-in type.
fn built_in_constructors(
    alloc: Global,
    kind: BuiltIn,
) -> Result<Vec<ConstructorEntry>, AllocError> {
    let mut entries = Vec::new(alloc);
    match kind {
        BuiltIn::Option => {
            entries.push(built_in_entry(alloc, Made::Some, &[0])?)?;
            entries.push(built_in_entry(alloc, Made::None, &[])?)?;
        }
        BuiltIn::Result => {
            entries.push(built_in_entry(alloc, Made::Ok, &[0])?)?;
            entries.push(built_in_entry(alloc, Made::Error, &[1])?)?;
        }
        BuiltIn::Tuple2 => entries.push(built_in_entry(alloc, Made::Tuple2, &[0, 1])?)?,
        BuiltIn::Tuple3 => entries.push(built_in_entry(alloc, Made::Tuple3, &[0, 1, 2])?)?,
        _ => {}
    }
    Ok(entries)
}

/// What a built-in type is.
fn form_of(kind: BuiltIn) -> TypeForm {
    match kind {
        BuiltIn::Option | BuiltIn::Result => TypeForm::Enum,
        _ => TypeForm::Plain,
    }
}

/// Gives a constructor of a built-in enum its place by its name, if the module has that name.
fn put_word(
    builder: &mut Builder,
    kind: BuiltIn,
    word: &[u8],
    place: u32,
) -> Result<(), AllocError> {
    if let Some(name) = builder.names.find(word) {
        builder.tables.put_constructor(kind.kind(), name, place)?;
    }
    Ok(())
}

/// Adds these built-in types, in their order.
fn add_kinds(builder: &mut Builder, kinds: &[BuiltIn]) -> Result<(), AllocError> {
    for kind in kinds {
        let parameters = nameless(builder.alloc, kind.arity())?;
        let constructors = built_in_constructors(builder.alloc, *kind)?;
        builder.tables.add_kind(KindEntry {
            name: KindName::BuiltIn(*kind),
            form: form_of(*kind),
            parameters,
            constructors,
        })?;
    }
    Ok(())
}

/// Adds the built-in types.
pub(crate) fn add_built_ins(builder: &mut Builder) -> Result<(), AllocError> {
    add_kinds(builder, &BUILT_INS)?;
    put_word(builder, BuiltIn::Option, b"Some", 0)?;
    put_word(builder, BuiltIn::Option, b"None", 1)?;
    put_word(builder, BuiltIn::Result, b"Ok", 0)?;
    put_word(builder, BuiltIn::Result, b"Error", 1)
}

/// The fields of a type that isn't an enum, as its one constructor.
fn fields(
    builder: &mut Builder,
    declared: &TypeDeclaration,
) -> Result<ConstructorEntry, AllocError> {
    let mut list = NameList::new(builder.alloc);
    let mut fields = Vec::new(builder.alloc);
    for member in &declared.members {
        if let Member::Field(field) = member {
            list.add(&mut builder.least, field.name.name, field.name.place)?;
            fields.push(FieldEntry {
                name: Some(field.name.name),
                of: FieldType::Written(field.annotation),
            })?;
        }
    }
    Ok(ConstructorEntry {
        name: Made::Named(declared.name.name),
        fields,
    })
}

/// A constructor of an enum.
fn constructor(
    alloc: Global,
    name: NameId,
    types: &[WrittenTypeId],
) -> Result<ConstructorEntry, AllocError> {
    let mut fields = Vec::new(alloc);
    for written in types {
        fields.push(FieldEntry {
            name: None,
            of: FieldType::Written(*written),
        })?;
    }
    let name = Made::Named(name);
    Ok(ConstructorEntry { name, fields })
}

/// The constructors of an enum.
fn constructors(
    builder: &mut Builder,
    members: &[Member],
) -> Result<Vec<ConstructorEntry>, AllocError> {
    let mut list = NameList::new(builder.alloc);
    let mut entries = Vec::new(builder.alloc);
    for member in members {
        if let Member::Constructor(declared) = member {
            let name = declared.name;
            list.add(&mut builder.least, name.name, name.place)?;
            builder.known.constructors.insert(name.name)?;
            entries.push(constructor(builder.alloc, name.name, &declared.types)?)?;
        }
    }
    Ok(entries)
}

/// The constructors of a declared type.
fn constructors_of(
    builder: &mut Builder,
    declared: &TypeDeclaration,
) -> Result<Vec<ConstructorEntry>, AllocError> {
    if matches!(declared.form, TypeForm::Enum) {
        return constructors(builder, &declared.members);
    }
    let mut entries = Vec::new(builder.alloc);
    entries.push(fields(builder, declared)?)?;
    Ok(entries)
}

/// Gives the fields of a type their places by their names. Where two have one name, the last stands.
fn put_fields(builder: &mut Builder, kind: KindId, members: &[Member]) -> Result<(), AllocError> {
    let mut place = 0;
    for member in members {
        if let Member::Field(field) = member {
            builder.tables.put_field(kind, field.name.name, place)?;
            place = number_behind(place)?;
        }
    }
    Ok(())
}

/// Gives the constructors of an enum their places by their names. Where two have one name, the last stands.
fn put_constructors(
    builder: &mut Builder,
    kind: KindId,
    members: &[Member],
) -> Result<(), AllocError> {
    let mut place = 0;
    for member in members {
        if let Member::Constructor(declared) = member {
            builder
                .tables
                .put_constructor(kind, declared.name.name, place)?;
            place = number_behind(place)?;
        }
    }
    Ok(())
}

/// Gives the type parameters of a type their places by their names. Where two have one name, the last stands.
fn put_parameters(
    builder: &mut Builder,
    kind: KindId,
    declared: &TypeDeclaration,
) -> Result<(), AllocError> {
    let mut place = 0;
    for parameter in &declared.parameters {
        builder
            .known
            .parameters
            .put(kind, parameter.name.name, place)?;
        place = number_behind(place)?;
    }
    Ok(())
}

/// Adds the methods in the braces of a type.
fn add_methods(builder: &mut Builder, kind: KindId, members: &[Member]) -> Result<(), AllocError> {
    let mut list = NameList::new(builder.alloc);
    for member in members {
        if let Member::Method(method) = member {
            add_member(builder, &mut list, kind, Home::Type(kind), method)?;
        }
    }
    Ok(())
}

/// Adds the entry of a declared type, and its methods.
pub(crate) fn add_type(
    builder: &mut Builder,
    declared: &TypeDeclaration,
) -> Result<(), AllocError> {
    let parameters = type_parameters(builder, &declared.parameters)?;
    let constructors = constructors_of(builder, declared)?;
    let kind = builder.tables.add_kind(KindEntry {
        name: KindName::Declared(declared.name.name),
        form: declared.form,
        parameters,
        constructors,
    })?;
    put_parameters(builder, kind, declared)?;
    put_fields(builder, kind, &declared.members)?;
    put_constructors(builder, kind, &declared.members)?;
    add_methods(builder, kind, &declared.members)
}
