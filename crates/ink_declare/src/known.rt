//! What the names of a module stand for wherever they are written: types, traits, methods of the module, constructors.

use crate::words::Words;
use indexmap::{IndexMap, IndexSet};
use ink_forms::NameId;
use ink_names::{BUILT_INS, BuiltIn, KindId, MethodNumber, Pairs, TraitId};
use ink_tables::Names;
use std::alloc::{AllocError, Global};

/// What names stand for in the whole module. Where two declarations have one name, the first stands.
#[derive(Drop)]
pub(crate) struct Known {
    pub words: Words,
    /// The types in scope: declared ones, and of the built-in ones those that need no import or are imported.
    pub kinds: IndexMap<NameId, KindId>,
    pub traits: IndexMap<NameId, TraitId>,
    pub functions: IndexMap<NameId, MethodNumber>,
    /// The names of the constructors of declared enums.
    pub constructors: IndexSet<NameId>,
    /// The places of the type parameters of a type, by its kind and their names.
    pub parameters: Pairs,
    pub is_panic_imported: bool,
}

/// Whether a built-in type has to be imported.
fn is_imported(kind: BuiltIn) -> bool {
    matches!(
        kind,
        BuiltIn::Tuple2 | BuiltIn::Tuple3 | BuiltIn::Stdout | BuiltIn::Future | BuiltIn::Promise
    )
}

/// Puts those of these types in scope that need no import.
fn put_built_ins(
    kinds: &mut IndexMap<NameId, KindId>,
    names: &Names,
    built_ins: &[BuiltIn],
) -> Result<(), AllocError> {
    for built_in in built_ins {
        if !is_imported(*built_in) {
            if let Some(name) = names.find(built_in.name()) {
                kinds.insert(name, built_in.kind())?;
            }
        }
    }
    Ok(())
}

/// Puts a number at a name that has none.
pub(crate) fn put_first(
    numbers: &mut IndexMap<NameId, u32>,
    name: NameId,
    number: u32,
) -> Result<(), AllocError> {
    if !numbers.contains_key(&name) {
        numbers.insert(name, number)?;
    }
    Ok(())
}

impl Known {
    /// What is known without imports and declarations.
    pub fn of(alloc: Global, names: &Names) -> Result<Self, AllocError> {
        let mut kinds = IndexMap::new(alloc);
        put_built_ins(&mut kinds, names, &BUILT_INS)?;
        Ok(Known {
            words: Words::of(names),
            kinds,
            traits: IndexMap::new(alloc),
            functions: IndexMap::new(alloc),
            constructors: IndexSet::new(alloc),
            parameters: Pairs::new(alloc),
            is_panic_imported: false,
        })
    }

    /// The type that a name stands for, where no type parameter hides it.
    pub fn kind(&self, name: NameId) -> Option<KindId> {
        self.kinds.get(&name).copied()
    }

    /// The trait that a name stands for.
    pub fn of_trait(&self, name: NameId) -> Option<TraitId> {
        self.traits.get(&name).copied()
    }

    /// The method of the module that a name stands for.
    pub fn function(&self, name: NameId) -> Option<MethodNumber> {
        self.functions.get(&name).copied()
    }
}
