//! The kinds of a module as types.
ghost use Rattle.std.specs.Prelude.{◌≡◌, ◌++◌, IfOk, OnOk};
ghost use Rattle.ink_names.specs.Tables as view;
ghost use Rattle.ink_signatures.specs.Kinds as spec;

use ink_forms::TypeForm;
use ink_names::{BUILT_INS, KindEntry, KindId, Tables};
use ink_types::{TypeId, Types};
use std::alloc::{AllocError, Global};

/// The number of what stands at this index. The greatest number is want of memory too.
pub(crate) fn number_of(index: usize) -> Result<u32, AllocError>
    ensures { IfOk result (λ n. n ≡ index) }
{
    if index >= u32::MAX as usize {
        return Err(AllocError);
    }
    Ok(index as u32)
}

/// Whether a kind is one that the module declares.
pub(crate) fn is_declared(kind: KindId) -> bool {
    kind as usize >= BUILT_INS.len()
}

/// The types behind the built-in ones.
fn behind_built_ins(kinds: &[KindEntry]) -> &[KindEntry]
    ensures { result.now ≡ spec.behind_built_ins kinds.now }
{
    if BUILT_INS.len() <= kinds.len() {
        &kinds[BUILT_INS.len()..]
    } else {
        &[]
    }
}

/// Whether a type is async.
fn is_async(form: TypeForm) -> bool
    ensures { result ≡ spec.is_async form }
{
    match form {
        TypeForm::Async => true,
        TypeForm::Plain | TypeForm::Enum => false,
    }
}

/// Adds these kinds to the types.
fn add_all(types: &mut Types, entries: &[KindEntry]) -> Result<(), AllocError>
    ensures { OnOk result (types.new.kinds ≡ types.old.kinds ++ spec.are_async entries.now) }
{
    for entry in entries {
        types.add_kind(is_async(entry.form))?;
    }
    Ok(())
}

/// Adds the kinds that a module declares to the types, which have the built-in ones. Each has the same number in both.
///
/// An `AllocError` is want of memory, or of numbers; what was added by then isn't said.
pub fn add_kinds(types: &mut Types, tables: &Tables) -> Result<(), AllocError>
    ensures { OnOk result (types.new.kinds ≡ types.old.kinds ++ spec.are_async (spec.behind_built_ins (view.kinds tables.now))) }
{
    add_all(types, behind_built_ins(tables.kinds()))
}

/// The first so many type parameters.
fn parameters(alloc: Global, types: &mut Types, count: usize) -> Result<Vec<TypeId>, AllocError>
    ensures kinds { types.new.kinds ≡ types.old.kinds }
{
    let mut all = Vec::new(alloc);
    for index in 0..count {
        let number = number_of(index)?;
        let parameter = types.parameter(number)?;
        all.push(parameter)?;
    }
    Ok(all)
}

/// Each kind as a type with its own parameters.
pub fn own_types(
    alloc: Global,
    types: &mut Types,
    tables: &Tables,
) -> Result<Vec<TypeId>, AllocError>
    ensures kinds { types.new.kinds ≡ types.old.kinds }
{
    let mut all = Vec::new(alloc);
    for (index, entry) in tables.kinds().iter().enumerate() {
        let kind = number_of(index)?;
        let arguments = parameters(alloc, types, entry.parameters.len())?;
        let own = types.of(kind, &arguments)?;
        all.push(own)?;
    }
    Ok(all)
}
