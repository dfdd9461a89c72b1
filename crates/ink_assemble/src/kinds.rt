//! The names of types.

use ink_base::{Items, Text};
use ink_checked::Checked;
use ink_names::{KindEntry, KindName};
use ink_tables::Names;
use std::alloc::{AllocError, Global};

/// The name of a type.
fn name_of<'a>(names: &'a Names, entry: &KindEntry) -> &'a [u8] {
    match entry.name {
        KindName::BuiltIn(built_in) => built_in.name(),
        KindName::Declared(name) => names.text(name),
    }
}

/// The names of all types of a module, the built-in ones first.
pub(crate) fn kinds_of(alloc: Global, checked: &Checked) -> Result<Items<Text>, AllocError> {
    let mut kinds = Vec::new(alloc);
    for entry in checked.tables().kinds() {
        kinds.push(Text::of(alloc, name_of(&checked.core().names, entry))?)?;
    }
    Ok(Items::of(kinds))
}
