//! The words of the language that are names: by their spelling, and by their numbers in a module.

use ink_forms::{Made, NameId};
use ink_names::{BUILT_INS, BuiltIn};
use ink_tables::Names;

/// The words that are no types and that no type, trait or type parameter can have as its name.
static RESERVED: [&[u8]; 5] = [b"Self", b"Some", b"None", b"Ok", b"Error"];

/// Whether a name is one of these.
fn is_among(words: &[&'static [u8]], name: &[u8]) -> bool {
    for word in words {
        if *word == name {
            return true;
        }
    }
    false
}

/// Whether a name is that of one of these types.
fn is_built_in(kinds: &[BuiltIn], name: &[u8]) -> bool {
    for kind in kinds {
        if kind.name() == name {
            return true;
        }
    }
    false
}

/// Whether no type, trait or type parameter can have this name.
pub(crate) fn is_reserved(name: &[u8]) -> bool {
    is_among(&RESERVED, name) || is_built_in(&BUILT_INS, name)
}

/// The numbers of the words that are asked for in a module, where it has them.
#[derive(Clone, Copy)]
pub(crate) struct Words {
    /// `Self`.
    pub self_type: Option<NameId>,
    /// `panic`.
    pub panic: Option<NameId>,
    /// `Main`, and its method `main`.
    pub main_type: Option<NameId>,
    pub main_method: Option<NameId>,
}

impl Words {
    /// The words of a module with these names.
    pub fn of(names: &Names) -> Self {
        Words {
            self_type: names.find(b"Self"),
            panic: names.find(b"panic"),
            main_type: names.find(b"Main"),
            main_method: names.find(b"main"),
        }
    }
}

/// Whether a word is this name.
pub(crate) fn is_word(word: Option<NameId>, name: NameId) -> bool {
    match word {
        Some(word) => word == name,
        None => false,
    }
}

/// The constructor of a built-in enum, by what a form makes: the enum, and the place in it.
pub(crate) fn built_in_constructor(made: Made) -> Option<(BuiltIn, u32)> {
    match made {
        Made::Some => Some((BuiltIn::Option, 0)),
        Made::None => Some((BuiltIn::Option, 1)),
        Made::Ok => Some((BuiltIn::Result, 0)),
        Made::Error => Some((BuiltIn::Result, 1)),
        Made::Tuple2 => Some((BuiltIn::Tuple2, 0)),
        Made::Tuple3 => Some((BuiltIn::Tuple3, 0)),
        Made::Named(_) => None,
    }
}
