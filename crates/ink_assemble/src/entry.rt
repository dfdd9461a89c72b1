//! Where a run begins.

use ink_checked::Checked;
use ink_names::{KindEntry, KindId, KindName, MethodNumber, Named};
use ink_tables::NameId;

/// The type of the first process, and the method of its first message.
#[derive(Clone, Copy)]
pub(crate) struct Entry {
    pub kind: KindId,
    pub method: MethodNumber,
}

/// Whether a type is declared by this name.
fn is_named(entry: &KindEntry, name: NameId) -> bool {
    match entry.name {
        KindName::BuiltIn(_) => false,
        KindName::Declared(declared) => declared == name,
    }
}

/// The type that is declared by a name.
fn kind_named(kinds: &[KindEntry], name: NameId) -> Option<KindId> {
    let place = kinds.iter().position(|entry| is_named(entry, name))?;
    Some(place.min(u32::MAX as usize) as u32)
}

/// Where a run of a module begins: in the method `main` of its type `Main`. There is none where one of the two is not
/// declared, or not once.
pub(crate) fn entry_of(checked: &Checked) -> Option<Entry> {
    let names = &checked.core().names;
    let kind = kind_named(checked.tables().kinds(), names.find(b"Main")?)?;
    match checked.tables().method_named(kind, names.find(b"main")?)? {
        Named::One(method) => Some(Entry { kind, method }),
        Named::Several => None,
    }
}
