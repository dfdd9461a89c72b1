//! What stands at a number, and what holds of a type. These take any number.
ghost use Rattle.std.specs.Prelude.{◌≡◌, ◌&&◌, ℕ, ◌+◌, ◌<◌, ◌≤◌, length, Some, IfSome, slice_get, MatchOption};
ghost use Rattle.std.specs.Option.{option_map};
ghost use Rattle.ink_types.specs.TypeTerms as types;
ghost use Rattle.ink_types.specs.Table as table;

use crate::kind::{FUTURE, NEVER, NIL, PROMISE};
use crate::term::{ArgumentList, Key, Term, TypeId};
use crate::types::Types;

impl Types {
    /// The term of a number. A number that is no term's gives Never.
    ///
    /// Its parts have smaller numbers.
    pub fn term(&self, t: TypeId) -> Term
        ensures term { table.grown_type self.now.items result ≡ table.type_at self.now t }
        ensures fits { table.TermFits self.now.items result }
        ensures behind { table.TermIsBehind t result }
    {
        match self.key(t) {
            Some(Key::Term(term)) => term,
            _ => Term::Of {
                kind: NEVER,
                arguments: ArgumentList::Empty,
            },
        }
    }

    /// The first of a list of arguments and the rest, or None where the list is empty.
    pub fn first_of(&self, list: ArgumentList) -> Option<(TypeId, ArgumentList)>
        ensures empty_or_more { table.list_at self.now list ≡ table.list_of self.now result }
        ensures fits { IfSome result (λ p. table.HoldsType self.now.items p.0 × table.HoldsList self.now.items p.1) }
        ensures behind { IfSome result (λ p. (p.0 + 1 < table.list_height list) × (table.list_height p.1 < table.list_height list)) }
    {
        match list {
            ArgumentList::Empty => None,
            ArgumentList::Cell(number) => match self.key(number) {
                Some(Key::Arguments(first, rest)) => Some((first, rest)),
                _ => None,
            },
        }
    }

    /// The arguments of a type, as a list.
    fn arguments_of(&self, t: TypeId) -> ArgumentList
        ensures list { types.listed (table.list_at self.now result) ≡ types.arguments (table.type_at self.now t) }
        ensures behind { table.list_height result ≤ t }
    {
        match self.term(t) {
            Term::Of { arguments, .. } => arguments,
            _ => ArgumentList::Empty,
        }
    }

    /// How many arguments a type has: none where it isn't of a kind.
    pub fn argument_count(&self, t: TypeId) -> usize
        ensures { result ≡ length (types.arguments (table.type_at self.now t)) }
    {
        let mut list = self.arguments_of(t);
        let mut count = 0;
        while let Some((_, rest)) = self.first_of(list) {
            count += 1;
            list = rest;
        }
        count
    }

    /// The argument of a type at this index, from 0.
    pub fn argument(&self, t: TypeId, index: usize) -> Option<TypeId>
        ensures means { option_map (table.type_at self.now) result ≡ slice_get (types.arguments (table.type_at self.now t)) index }
        ensures held { IfSome result (λ a. table.HoldsType self.now.items a) }
    {
        let mut list = self.arguments_of(t);
        let mut left = index;
        while let Some((first, rest)) = self.first_of(list) {
            if left == 0 {
                return Some(first);
            }
            left -= 1;
            list = rest;
        }
        None
    }

    /// Whether two numbers are both of Never, or of no type.
    pub(crate) fn are_never(&self, t: TypeId, u: TypeId) -> bool
        ensures { result ≡ types.is_never (table.type_at self.now t) && types.is_never (table.type_at self.now u) }
    {
        self.is_never(t) && self.is_never(u)
    }

    /// Whether a number is of Never, or of no type.
    pub fn is_never(&self, t: TypeId) -> bool
        ensures { result ≡ types.is_never (table.type_at self.now t) }
    {
        match self.term(t) {
            Term::Of { kind, arguments } => kind == NEVER && self.first_of(arguments).is_none(),
            _ => false,
        }
    }

    /// Whether types of a kind are value types: Int, Bool, String, Nil and the async kinds.
    pub fn is_value_kind(&self, kind: u32) -> bool
        ensures { result ≡ types.is_value_kind self.now.kinds kind }
    {
        kind <= NIL || self.is_async(kind)
    }

    /// Whether a type is a value type.
    pub fn is_value(&self, t: TypeId) -> bool
        ensures { result ≡ types.is_value self.now.kinds (table.type_at self.now t) }
    {
        match self.term(t) {
            Term::Of { kind, .. } => self.is_value_kind(kind),
            _ => false,
        }
    }

    /// Whether a type is `uni T`, Future or Promise.
    pub fn is_unborrowable(&self, t: TypeId) -> bool
        ensures { result ≡ types.is_unborrowable (table.type_at self.now t) }
    {
        match self.term(t) {
            Term::Of { kind, .. } => kind == FUTURE || kind == PROMISE,
            Term::Uni(_) => true,
            _ => false,
        }
    }

    /// Whether a value of a type may be sent: one of a value type or of an unborrowable type. A parameter's never may.
    pub fn sendable(&self, t: TypeId) -> bool
        ensures { result ≡ types.is_sendable self.now.kinds (table.type_at self.now t) }
    {
        self.is_value(t) || self.is_unborrowable(t)
    }

    /// Whether a type is a `ref` or a `mut`.
    pub fn is_borrow(&self, t: TypeId) -> bool
        ensures { result ≡ types.is_borrow (table.type_at self.now t) }
    {
        match self.term(t) {
            Term::Ref(_) | Term::Mut(_) => true,
            _ => false,
        }
    }

    /// Whether a value of the first type may stand where one of the second is expected.
    #[tactic(auto, unfolding(crate::specs::TypeTerms::is_assignable))]
    pub fn assignable(&self, from: TypeId, to: TypeId) -> bool
        ensures { result ≡ types.is_assignable (table.type_at self.now from) (table.type_at self.now to) }
    {
        match self.term(from) {
            Term::Uni(inner) => self.same(from, to) || self.same(inner, to),
            Term::Mut(inner) => self.same(from, to) || self.is_ref_of(inner, to),
            _ => self.is_never(from) || self.same(from, to),
        }
    }

    /// Whether the second type is `ref` of the first.
    pub(crate) fn is_ref_of(&self, t: TypeId, borrow: TypeId) -> bool
        ensures { result ≡ types.is_ref_of (table.type_at self.now t) (table.type_at self.now borrow) }
    {
        match self.term(borrow) {
            Term::Ref(inner) => self.same(t, inner),
            _ => false,
        }
    }

    /// Whether the second type is `mut` of the first.
    pub(crate) fn is_mut_of(&self, t: TypeId, borrow: TypeId) -> bool
        ensures { result ≡ types.is_mut_of (table.type_at self.now t) (table.type_at self.now borrow) }
    {
        match self.term(borrow) {
            Term::Mut(inner) => self.same(t, inner),
            _ => false,
        }
    }

    /// Whether a `uni` of a borrow stands anywhere in a type. No such type is written: a substitution makes it, and is
    /// refused by who asked for it.
    #[cycle(uni)]
    #[tactic(auto, unfolding(crate::specs::TypeTerms::has_uni_of_borrow, crate::specs::TypeTerms::any_uni_of_borrow))]
    pub fn uni_of_borrow(&self, t: TypeId) -> bool
        ensures { result ≡ types.has_uni_of_borrow (table.type_at self.now t) }
    {
        match self.term(t) {
            Term::Parameter(_) => false,
            Term::Of { arguments, .. } => self.uni_of_borrow_among(arguments),
            Term::Ref(inner) | Term::Mut(inner) => self.uni_of_borrow(inner),
            Term::Uni(inner) => self.is_borrow(inner) || self.uni_of_borrow(inner),
        }
    }

    #[cycle(uni)]
    #[tactic(auto, unfolding(crate::specs::TypeTerms::has_uni_of_borrow, crate::specs::TypeTerms::any_uni_of_borrow))]
    fn uni_of_borrow_among(&self, list: ArgumentList) -> bool
        ensures { result ≡ types.any_uni_of_borrow (table.list_at self.now list) }
    {
        match self.first_of(list) {
            Some((first, rest)) => self.uni_of_borrow(first) || self.uni_of_borrow_among(rest),
            None => false,
        }
    }
}
