//! The declarations of a module: their names first, since each may be used before it is declared, and then their entries.

use crate::builder::{Builder, number_behind};
use crate::duplicates::NameList;
use crate::entries::{add_built_ins, add_type};
use crate::known::{Known, put_first};
use crate::signatures::add_function;
use crate::traits::{add_impl, add_trait};
use ink_forms::Declaration;
use ink_names::{BUILT_INS, Least};
use ink_tables::Names;
use std::alloc::{AllocError, Global};

/// Gives the types and the traits of a module their numbers by their names, which stand in one list.
pub(crate) fn name_declarations(
    alloc: Global,
    names: &Names,
    known: &mut Known,
    least: &mut Least,
    declarations: &[Declaration],
) -> Result<(), AllocError> {
    let mut list = NameList::new(alloc);
    let mut kind = BUILT_INS.len() as u32;
    let mut number = 0;
    for declaration in declarations {
        match declaration {
            Declaration::Type(declared) => {
                list.add_type(least, names, declared.name)?;
                put_first(&mut known.kinds, declared.name.name, kind)?;
                kind = number_behind(kind)?;
            }
            Declaration::Trait(declared) => {
                list.add_type(least, names, declared.name)?;
                put_first(&mut known.traits, declared.name.name, number)?;
                number = number_behind(number)?;
            }
            _ => {}
        }
    }
    Ok(())
}

/// Adds the entries of a declaration.
fn add_declaration(builder: &mut Builder, declaration: &Declaration) -> Result<(), AllocError> {
    match declaration {
        Declaration::Type(declared) => add_type(builder, declared),
        Declaration::Trait(declared) => add_trait(builder, declared),
        Declaration::Implementation(declared) => add_impl(builder, declared),
        Declaration::Method(method) => add_function(builder, method),
    }
}

/// Adds the entries of all types, methods, traits and impls.
pub(crate) fn add_entries(
    builder: &mut Builder,
    declarations: &[Declaration],
) -> Result<(), AllocError> {
    add_built_ins(builder)?;
    for declaration in declarations {
        add_declaration(builder, declaration)?;
    }
    Ok(())
}
