//! Which constructor of which type a pattern is of.

use crate::site::Site;
use ink_forms::{Made, Pattern, PatternId};
use ink_names::{FieldType, KindId, Resolution};
use ink_types::{NEVER, Term};

/// A constructor of a type, by its tag: its place among those of the type.
#[derive(Clone, Copy)]
pub(crate) struct Case {
    pub kind: KindId,
    pub tag: u32,
}

impl Site<'_> {
    /// The kind of what a pattern is matched with, which may be a borrow of it or unique.
    pub fn kind_of(&self, pattern: PatternId) -> KindId {
        let types = self.context.checked.types();
        let Some(of) = self.context.checked.typed().type_of(pattern) else {
            return NEVER;
        };
        let bare = match types.term(of) {
            Term::Ref(bare) | Term::Mut(bare) | Term::Uni(bare) => bare,
            _ => of,
        };
        match types.term(bare) {
            Term::Of { kind, .. } => kind,
            _ => NEVER,
        }
    }

    /// The tag of a constructor: by its name in an enum of the module, and else as it was resolved.
    fn tag_of(&self, pattern: PatternId, made: Made, kind: KindId) -> u32 {
        if let Made::Named(name) = made {
            return self
                .context
                .checked
                .tables()
                .constructor(kind, name)
                .unwrap_or(0);
        }
        match self.context.checked.resolutions().get(pattern) {
            Resolution::Constructor { index, .. } => index,
            _ => 0,
        }
    }

    /// The constructor that a pattern is of. One of fields is of the only one of its type.
    pub fn case_of(&self, pattern: PatternId) -> Case {
        let kind = self.kind_of(pattern);
        let tag = match self.arena.pattern(pattern).pattern {
            Pattern::Constructor { made, .. } => self.tag_of(pattern, made, kind),
            _ => 0,
        };
        Case { kind, tag }
    }

    /// Whether a type has no two constructors, so that its tag tells nothing.
    pub fn is_single(&self, kind: KindId) -> bool {
        match self.context.checked.tables().kind(kind) {
            Some(entry) => entry.constructors.len() < 2,
            None => true,
        }
    }

    /// How many fields a constructor has.
    pub fn field_count(&self, case: Case) -> u32 {
        let Some(entry) = self.context.checked.tables().kind(case.kind) else {
            return 0;
        };
        match entry.constructors.get(case.tag as usize) {
            Some(constructor) => constructor.fields.len().min(u32::MAX as usize) as u32,
            None => 0,
        }
    }

    /// Whether a field is written with a value type, which needs no drop.
    pub fn is_value_field(&self, case: Case, place: u32) -> bool {
        let Some(entry) = self.context.checked.tables().kind(case.kind) else {
            return false;
        };
        let Some(constructor) = entry.constructors.get(case.tag as usize) else {
            return false;
        };
        match constructor.fields.get(place as usize) {
            Some(field) => self.is_value_written(field.of),
            None => false,
        }
    }

    /// Whether a field's type is written as a value type.
    fn is_value_written(&self, of: FieldType) -> bool {
        match of {
            FieldType::Written(written) => {
                match self.context.checked.signatures().type_of(written) {
                    Some(of) => self.context.checked.types().is_value(of),
                    None => false,
                }
            }
            FieldType::Parameter(_) => false,
        }
    }
}
