//! Type parameters, and the entries of methods.

use crate::builder::Builder;
use crate::duplicates::NameList;
use crate::words::is_word;
use ink_base::Rule;
use ink_forms::{Identifier, MethodDeclaration, TypeParameter};
use ink_names::{Home, KindId, MethodEntry, MethodNumber, TraitId, TypeParameterEntry};
use std::alloc::AllocError;

/// The traits that bound a type parameter. One that is no trait is told, and left out.
fn bounds(builder: &mut Builder, written: &[Identifier]) -> Result<Vec<TraitId>, AllocError> {
    let mut list = NameList::new(builder.alloc);
    let mut numbers = Vec::new(builder.alloc);
    for bound in written {
        list.add(&mut builder.least, bound.name, bound.place)?;
        match builder.known.of_trait(bound.name) {
            Some(number) => numbers.push(number)?,
            None => builder.least.break_at(Rule::UnknownName, bound.place),
        }
    }
    Ok(numbers)
}

/// The entries of type parameters.
pub(crate) fn type_parameters(
    builder: &mut Builder,
    written: &[TypeParameter],
) -> Result<Vec<TypeParameterEntry>, AllocError> {
    let mut list = NameList::new(builder.alloc);
    let mut entries = Vec::new(builder.alloc);
    for parameter in written {
        list.add_type(&mut builder.least, builder.names, parameter.name)?;
        let bounds = bounds(builder, &parameter.bounds)?;
        let name = Some(parameter.name.name);
        entries.push(TypeParameterEntry { name, bounds })?;
    }
    Ok(entries)
}

/// How many type parameters a method has before its own: those of its type.
fn inherited(builder: &Builder, home: Home) -> u32 {
    let kind = match home {
        Home::Module => return 0,
        Home::Type(kind) => kind,
        Home::Impl { kind, .. } => kind,
    };
    match builder.tables.kind(kind) {
        Some(entry) => entry.parameters.len().min(u32::MAX as usize) as u32,
        None => 0,
    }
}

/// Adds the entry of a method.
pub(crate) fn add_method(
    builder: &mut Builder,
    home: Home,
    method: &MethodDeclaration,
) -> Result<MethodNumber, AllocError> {
    let type_parameters = type_parameters(builder, &method.type_parameters)?;
    let node = builder.arena.method(method.method).method;
    let inherited = inherited(builder, home);
    builder.tables.add_method(MethodEntry {
        name: method.name.name,
        home,
        mode: node.mode,
        is_async: node.is_async,
        inherited,
        type_parameters,
        node: method.method,
        result: method.result,
    })
}

/// Adds a method of a type, whose name may not stand twice in its braces.
pub(crate) fn add_member(
    builder: &mut Builder,
    list: &mut NameList,
    kind: KindId,
    home: Home,
    method: &MethodDeclaration,
) -> Result<MethodNumber, AllocError> {
    list.add(&mut builder.least, method.name.name, method.name.place)?;
    let number = add_method(builder, home, method)?;
    builder.tables.put_method(kind, method.name.name, number)?;
    Ok(number)
}

/// Adds a method of the module, which may not be named `panic`.
pub(crate) fn add_function(
    builder: &mut Builder,
    method: &MethodDeclaration,
) -> Result<(), AllocError> {
    let name = method.name;
    if is_word(builder.known.words.panic, name.name) {
        builder.least.break_at(Rule::DuplicateName, name.place);
    }
    let is_first = builder
        .functions
        .add(&mut builder.least, name.name, name.place)?;
    let number = add_method(builder, Home::Module, method)?;
    if is_first {
        builder.known.functions.insert(name.name, number)?;
    }
    Ok(())
}
