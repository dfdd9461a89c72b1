//! Imports: what each path has, and which names it brings into scope.

use crate::duplicates::NameList;
use crate::known::{Known, put_first};
use ink_base::Rule;
use ink_forms::{Identifier, Import};
use ink_names::{BuiltIn, Least};
use ink_tables::Names;
use std::alloc::{AllocError, Global};

/// A module that can be imported.
#[derive(Clone, Copy)]
enum Library {
    Stdio,
    Sync,
    Process,
}

/// What a module has that can be imported.
#[derive(Clone, Copy)]
enum Imported {
    Type(BuiltIn),
    Panic,
}

/// The module that a path names: `std.stdio`, `std.sync` or `std.process`.
fn library_of(names: &Names, path: &[Identifier]) -> Option<Library> {
    let [first, second] = path else {
        return None;
    };
    if !matches!(names.text(first.name), b"std") {
        return None;
    }
    match names.text(second.name) {
        b"stdio" => Some(Library::Stdio),
        b"sync" => Some(Library::Sync),
        b"process" => Some(Library::Process),
        _ => None,
    }
}

/// What a name stands for in a module that can be imported.
fn item_of(library: Library, name: &[u8]) -> Option<Imported> {
    match (library, name) {
        (Library::Stdio, b"Stdout") => Some(Imported::Type(BuiltIn::Stdout)),
        (Library::Sync, b"Future") => Some(Imported::Type(BuiltIn::Future)),
        (Library::Sync, b"Promise") => Some(Imported::Type(BuiltIn::Promise)),
        (Library::Process, b"panic") => Some(Imported::Panic),
        _ => None,
    }
}

/// Brings a name of a module into scope. One that the module doesn't have breaks the rule.
fn import_name(
    names: &Names,
    known: &mut Known,
    least: &mut Least,
    library: Library,
    name: Identifier,
) -> Result<(), AllocError> {
    match item_of(library, names.text(name.name)) {
        Some(Imported::Type(kind)) => put_first(&mut known.kinds, name.name, kind.kind())?,
        Some(Imported::Panic) => known.is_panic_imported = true,
        None => least.break_at(Rule::UnknownImport, name.place),
    }
    Ok(())
}

/// An import. Where its path is unknown, that alone is told, at its word.
fn import(
    alloc: Global,
    names: &Names,
    known: &mut Known,
    least: &mut Least,
    written: &Import,
) -> Result<(), AllocError> {
    let Some(library) = library_of(names, &written.path) else {
        least.break_at(Rule::UnknownImport, written.start);
        return Ok(());
    };
    let mut list = NameList::new(alloc);
    for name in &written.names {
        list.add(least, name.name, name.place)?;
        import_name(names, known, least, library, *name)?;
    }
    Ok(())
}

/// The imports of a module.
pub(crate) fn imports(
    alloc: Global,
    names: &Names,
    known: &mut Known,
    least: &mut Least,
    imports: &[Import],
) -> Result<(), AllocError> {
    for item in imports {
        import(alloc, names, known, least, item)?;
    }
    Ok(())
}
