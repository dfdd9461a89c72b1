//! What a pattern is matched with.
ghost use Rattle.std.specs.Prelude.{◌≡◌};

use ink_base::BorrowKind;
use ink_members::seen_part;
use ink_names::KindId;
use ink_types::{Term, TypeId, Types};
use std::alloc::AllocError;

/// The type of what a pattern is matched with, as it is seen there, and the nearest borrow on the way to it, through which
/// its parts are seen.
#[derive(Clone, Copy)]
pub(crate) struct Matched {
    pub of: TypeId,
    pub below: Option<BorrowKind>,
}

impl Matched {
    /// What a whole pattern is matched with. A `uni` is made owned first.
    pub fn whole(types: &Types, scrutinee: TypeId) -> Matched {
        let of = match types.term(scrutinee) {
            Term::Uni(inner) => inner,
            _ => scrutinee,
        };
        Matched { of, below: None }
    }

    /// The same without the borrow or the `uni` that stands before it: a pattern that goes into it is matched with its
    /// parts, which are seen through that borrow.
    pub fn opened(self, types: &Types) -> Matched {
        match types.term(self.of) {
            Term::Ref(of) => Matched {
                of,
                below: Some(BorrowKind::Ref),
            },
            Term::Mut(of) => Matched {
                of,
                below: Some(BorrowKind::Mut),
            },
            Term::Uni(of) => Matched {
                of,
                below: self.below,
            },
            _ => self,
        }
    }

    /// The kind of it, where it is opened. A type parameter has none.
    pub fn kind(self, types: &Types) -> Option<KindId> {
        match types.term(self.of) {
            Term::Of { kind, .. } => Some(kind),
            _ => None,
        }
    }

    /// A part of this declared type, as it is seen through what is opened.
    pub fn part(self, types: &mut Types, of: TypeId) -> Result<Matched, AllocError>
        ensures kinds { types.new.kinds ≡ types.old.kinds }
    {
        let of = match self.below {
            Some(kind) => seen_part(types, kind, of)?,
            None => of,
        };
        Ok(Matched {
            of,
            below: self.below,
        })
    }
}
