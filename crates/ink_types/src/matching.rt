//! Arguments for the parameters of a type, with which it is another type.
//!
//! Where a parameter occurs several times, the occurrences ask for several types: below a `ref` any of whose `ref` is the
//! other type, below a `mut` any of whose `mut` is. A parameter gets the type that its strictest occurrence asks for.
ghost use Rattle.std.specs.Prelude.{◌≡◌, ℕ, ◌+◌, ◌<◌, ◌≤◌, MatchBool, length, Some, None, IfSome, slice_get};
ghost use Rattle.std.specs.Bool.{OnFalse, OnTrue};
ghost use Rattle.std.specs.Option.{option_map};
ghost use Rattle.ink_types.specs.TypeTerms as types;
ghost use Rattle.ink_types.specs.Table as table;
ghost use Rattle.ink_types.specs.Matching as matched;

use crate::kind::{FUTURE, PROMISE};
use crate::term::{ArgumentList, Term, TypeId};
use crate::types::Types;

/// The prefix below which a type stands, of all that stand before it.
#[derive(Clone, Copy, PartialEq)]
pub(crate) enum Under {
    Nothing,
    Ref,
    Mut,
}

/// A pattern, the type that it is to be, and what was found before.
#[derive(Drop)]
struct Matching<'a> {
    pattern: TypeId,
    actual: TypeId,
    found: &'a [Option<TypeId>],
}

impl Under {
    /// A `mut` below this.
    fn then_mut(self) -> Under
        ensures { result ≡ matched.then_mut self }
    {
        match self {
            Under::Nothing | Under::Mut => Under::Mut,
            Under::Ref => Under::Ref,
        }
    }
}

impl Types {
    /// Finds arguments for the parameters of a pattern, with which it is another type.
    ///
    /// Place n of `found` is that of parameter n. It keeps the type that it has; one that has none gets the type that was
    /// found, if the parameter occurs. A parameter that has no place is itself. The answer is false, and nothing is
    /// written, exactly where there are no such arguments. Where several types do for a parameter, it gets the one that
    /// isn't a borrow.
    pub fn match_one_way(
        &self,
        pattern: TypeId,
        actual: TypeId,
        found: &mut Vec<Option<TypeId>>,
    ) -> bool
        ensures matched { MatchBool result
            (matched.IsMatched self.now.kinds (matched.found_types self.now found.old.items) (matched.found_types self.now found.new.items) (table.type_at self.now pattern) (table.type_at self.now actual))
            (matched.NoneFits self.now.kinds (matched.found_types self.now found.old.items) (table.type_at self.now pattern) (table.type_at self.now actual)) }
        ensures told { result ≡ matched.fits self.now.kinds (matched.found_types self.now found.old.items) (table.type_at self.now pattern) (table.type_at self.now actual) }
        ensures filled { OnTrue result (matched.found_types self.now found.new.items ≡ matched.filled self.now.kinds (matched.found_types self.now found.old.items) (table.type_at self.now pattern) (table.type_at self.now actual)) }
        ensures refused { OnFalse result (found.new.items ≡ found.old.items) }
        ensures held { table.HoldsType self.now.items actual → table.AreHeld self.now found.old.items → table.AreHeld self.now found.new.items }
    {
        self.match_places(pattern, actual, found)
    }

    fn match_places(&self, pattern: TypeId, actual: TypeId, found: &mut [Option<TypeId>]) -> bool
        ensures matched { MatchBool result
            (matched.IsMatched self.now.kinds (matched.found_types self.now found.old) (matched.found_types self.now found.new) (table.type_at self.now pattern) (table.type_at self.now actual))
            (matched.NoneFits self.now.kinds (matched.found_types self.now found.old) (table.type_at self.now pattern) (table.type_at self.now actual)) }
        ensures told { result ≡ matched.fits self.now.kinds (matched.found_types self.now found.old) (table.type_at self.now pattern) (table.type_at self.now actual) }
        ensures filled { OnTrue result (matched.found_types self.now found.new ≡ matched.filled self.now.kinds (matched.found_types self.now found.old) (table.type_at self.now pattern) (table.type_at self.now actual)) }
        ensures refused { OnFalse result (found.new ≡ found.old) }
        ensures held { table.HoldsType self.now.items actual → table.AreHeld self.now found.old → table.AreHeld self.now found.new }
    {
        if !self.fits(pattern, actual, found) {
            return false;
        }
        self.fill_places(pattern, actual, found);
        true
    }

    /// Gives each place that has no type the one wanted.
    fn fill_places(&self, pattern: TypeId, actual: TypeId, found: &mut [Option<TypeId>])
        ensures means { matched.found_types self.now found.new ≡ matched.filled self.now.kinds (matched.found_types self.now found.old) (table.type_at self.now pattern) (table.type_at self.now actual) }
        ensures held { table.HoldsType self.now.items actual → table.AreHeld self.now found.old → table.AreHeld self.now found.new }
    {
        for number in 0..found.len() {
            let place = self.kept_or_wanted(found[number], number, pattern, actual);
            found[number] = place;
        }
    }

    /// The type that a place has, or the one wanted.
    fn kept_or_wanted(
        &self,
        place: Option<TypeId>,
        number: usize,
        pattern: TypeId,
        actual: TypeId,
    ) -> Option<TypeId>
        ensures means { option_map (table.type_at self.now) result ≡ matched.or_else (option_map (table.type_at self.now) place) (matched.wanted self.now.kinds (table.type_at self.now pattern) (table.type_at self.now actual) number) }
        ensures held { table.HoldsType self.now.items actual → IfSome place (λ t. table.HoldsType self.now.items t) → IfSome result (λ t. table.HoldsType self.now.items t) }
    {
        match place {
            Some(t) => Some(t),
            None => self.wanted(number, pattern, actual),
        }
    }

    /// Whether a pattern is another type, with the types found and wanted in place of its parameters.
    fn fits(&self, pattern: TypeId, actual: TypeId, found: &[Option<TypeId>]) -> bool
        ensures { result ≡ matched.fits self.now.kinds (matched.found_types self.now found.now) (table.type_at self.now pattern) (table.type_at self.now actual) }
    {
        let matching = Matching {
            pattern,
            actual,
            found,
        };
        self.fits_under(&matching, Under::Nothing, pattern, actual)
    }

    #[cycle(fits)]
    #[tactic(auto, unfolding(crate::specs::Matching::fits_below, crate::specs::Matching::fit_all))]
    fn fits_under(&self, matching: &Matching, under: Under, pattern: TypeId, actual: TypeId) -> bool
        ensures { result ≡ matched.fits_below self.now.kinds (matched.chosen self.now.kinds (matched.found_types self.now matching.now.found.now) (table.type_at self.now matching.now.pattern) (table.type_at self.now matching.now.actual)) under (table.type_at self.now pattern) (table.type_at self.now actual) }
    {
        match self.term(pattern) {
            Term::Parameter(number) => match self.chosen(matching, pattern, number as usize) {
                Some(t) => self.is_under(under, t, actual),
                None => false,
            },
            Term::Of { kind, arguments } => match self.arguments_under(under, kind, actual) {
                Some(given) => self.fit_all(matching, arguments, given),
                None => false,
            },
            Term::Ref(inner) => self.fits_under(matching, Under::Ref, inner, actual),
            Term::Mut(inner) => self.fits_under(matching, under.then_mut(), inner, actual),
            Term::Uni(inner) => match self.unique_under(under, actual) {
                Some(unique) => self.fits_under(matching, Under::Nothing, inner, unique),
                None => false,
            },
        }
    }

    #[cycle(fits)]
    #[tactic(auto, unfolding(crate::specs::Matching::fits_below, crate::specs::Matching::fit_all))]
    fn fit_all(&self, matching: &Matching, patterns: ArgumentList, actuals: ArgumentList) -> bool
        ensures { result ≡ matched.fit_all self.now.kinds (matched.chosen self.now.kinds (matched.found_types self.now matching.now.found.now) (table.type_at self.now matching.now.pattern) (table.type_at self.now matching.now.actual)) (table.list_at self.now patterns) (table.list_at self.now actuals) }
    {
        match (self.first_of(patterns), self.first_of(actuals)) {
            (Some((pattern, patterns)), Some((actual, actuals))) => {
                self.fits_under(matching, Under::Nothing, pattern, actual)
                    && self.fit_all(matching, patterns, actuals)
            }
            (None, None) => true,
            _ => false,
        }
    }

    /// The type that stands for a parameter: the one found, else the one wanted, or the parameter itself where it has no
    /// place.
    fn chosen(&self, matching: &Matching, parameter: TypeId, number: usize) -> Option<TypeId>
        ensures { option_map (table.type_at self.now) result ≡ matched.chosen_at (slice_get (matched.found_types self.now matching.now.found.now) number) (matched.wanted self.now.kinds (table.type_at self.now matching.now.pattern) (table.type_at self.now matching.now.actual) number) (table.type_at self.now parameter) }
    {
        match matching.found.get(number) {
            Some(found) => match found {
                Some(t) => Some(*t),
                None => self.wanted(number, matching.pattern, matching.actual),
            },
            None => Some(parameter),
        }
    }

    /// The type that the strictest occurrence of a parameter asks for.
    fn wanted(&self, number: usize, pattern: TypeId, actual: TypeId) -> Option<TypeId>
        ensures means { option_map (table.type_at self.now) result ≡ matched.wanted self.now.kinds (table.type_at self.now pattern) (table.type_at self.now actual) number }
        ensures held { table.HoldsType self.now.items actual → IfSome result (λ t. table.HoldsType self.now.items t) }
    {
        let whole = self.asked(number, Under::Nothing, Under::Nothing, pattern, actual);
        if whole.is_some() {
            return whole;
        }
        let writable = self.asked(number, Under::Mut, Under::Nothing, pattern, actual);
        if writable.is_some() {
            return writable;
        }
        self.asked(number, Under::Ref, Under::Nothing, pattern, actual)
    }

    /// The type that a parameter's first occurrence below such a prefix asks for.
    #[cycle(asked)]
    #[tactic(auto, unfolding(crate::specs::Matching::asked, crate::specs::Matching::asked_among))]
    fn asked(
        &self,
        number: usize,
        below: Under,
        under: Under,
        pattern: TypeId,
        actual: TypeId,
    ) -> Option<TypeId>
        ensures means { option_map (table.type_at self.now) result ≡ matched.asked self.now.kinds number below under (table.type_at self.now pattern) (table.type_at self.now actual) }
        ensures held { table.HoldsType self.now.items actual → IfSome result (λ t. table.HoldsType self.now.items t) }
    {
        match self.term(pattern) {
            Term::Parameter(other) => {
                if other as usize == number && under == below {
                    self.type_under(under, actual)
                } else {
                    None
                }
            }
            Term::Of { kind, arguments } => match self.arguments_under(under, kind, actual) {
                Some(given) => self.asked_among(number, below, arguments, given),
                None => None,
            },
            Term::Ref(inner) => self.asked(number, below, Under::Ref, inner, actual),
            Term::Mut(inner) => self.asked(number, below, under.then_mut(), inner, actual),
            Term::Uni(inner) => match self.unique_under(under, actual) {
                Some(unique) => self.asked(number, below, Under::Nothing, inner, unique),
                None => None,
            },
        }
    }

    #[cycle(asked)]
    #[tactic(auto, unfolding(crate::specs::Matching::asked, crate::specs::Matching::asked_among))]
    fn asked_among(
        &self,
        number: usize,
        below: Under,
        patterns: ArgumentList,
        actuals: ArgumentList,
    ) -> Option<TypeId>
        ensures means { option_map (table.type_at self.now) result ≡ matched.asked_among self.now.kinds number below (table.list_at self.now patterns) (table.list_at self.now actuals) }
        ensures held { IfSome result (λ t. table.HoldsType self.now.items t) }
    {
        match (self.first_of(patterns), self.first_of(actuals)) {
            (Some((pattern, patterns)), Some((actual, actuals))) => {
                match self.asked(number, below, Under::Nothing, pattern, actual) {
                    Some(t) => Some(t),
                    None => self.asked_among(number, below, patterns, actuals),
                }
            }
            _ => None,
        }
    }

    /// Whether a type, below a prefix, is another.
    fn is_under(&self, under: Under, t: TypeId, actual: TypeId) -> bool
        ensures { result ≡ matched.is_below self.now.kinds under (table.type_at self.now t) (table.type_at self.now actual) }
    {
        match under {
            Under::Nothing => self.same(t, actual),
            Under::Ref => self.is_ref(t, actual),
            Under::Mut => self.is_mut(t, actual),
        }
    }

    /// Whether `ref` of a type, in normal form, is another.
    #[tactic(auto, unfolding(crate::specs::TypeTerms::ref_of, crate::specs::TypeTerms::same_type))]
    fn is_ref(&self, t: TypeId, actual: TypeId) -> bool
        ensures { result ≡ types.same_type (types.ref_of self.now.kinds (table.type_at self.now t)) (table.type_at self.now actual) }
    {
        match self.term(t) {
            Term::Ref(_) => self.same(t, actual),
            Term::Mut(inner) => self.is_ref_of(inner, actual),
            _ => {
                if self.is_value(t) {
                    self.same(t, actual)
                } else {
                    self.is_ref_of(t, actual)
                }
            }
        }
    }

    /// Whether `mut` of a type, in normal form, is another.
    #[tactic(auto, unfolding(crate::specs::TypeTerms::mut_of, crate::specs::TypeTerms::same_type))]
    fn is_mut(&self, t: TypeId, actual: TypeId) -> bool
        ensures { result ≡ types.same_type (types.mut_of self.now.kinds (table.type_at self.now t)) (table.type_at self.now actual) }
    {
        match self.term(t) {
            Term::Ref(_) | Term::Mut(_) => self.same(t, actual),
            _ => {
                if self.is_value(t) {
                    self.same(t, actual)
                } else {
                    self.is_mut_of(t, actual)
                }
            }
        }
    }

    /// The type that isn't a borrow and that below a prefix is this one, or else any that is.
    #[tactic(auto, unfolding(crate::specs::Matching::type_below))]
    fn type_under(&self, under: Under, actual: TypeId) -> Option<TypeId>
        ensures means { option_map (table.type_at self.now) result ≡ matched.type_below self.now.kinds under (table.type_at self.now actual) }
        ensures held { table.HoldsType self.now.items actual → IfSome result (λ t. table.HoldsType self.now.items t) }
    {
        let bare = self.bare(under, actual);
        if self.is_under(under, bare, actual) {
            Some(bare)
        } else if self.is_under(under, actual, actual) {
            Some(actual)
        } else {
            None
        }
    }

    /// What stands behind a prefix, or the type itself where it doesn't begin with it.
    fn bare(&self, under: Under, t: TypeId) -> TypeId
        ensures means { table.type_at self.now result ≡ matched.bare under (table.type_at self.now t) }
        ensures held { table.HoldsType self.now.items t → table.HoldsType self.now.items result }
    {
        match self.term(t) {
            Term::Ref(inner) => { if under == Under::Ref { inner } else { t } }
            Term::Mut(inner) => { if under == Under::Mut { inner } else { t } }
            _ => t,
        }
    }

    /// The arguments with which a kind, below a prefix, is a type.
    fn arguments_under(&self, under: Under, kind: u32, actual: TypeId) -> Option<ArgumentList>
        ensures { option_map (table.list_at self.now) result ≡ matched.arguments_below self.now.kinds under kind (table.type_at self.now actual) }
    {
        match self.type_under(under, actual) {
            Some(t) => match self.term(t) {
                Term::Of {
                    kind: other,
                    arguments,
                } => { if other == kind { Some(arguments) } else { None } }
                _ => None,
            },
            None => None,
        }
    }

    /// The type whose `uni`, below a prefix, is a type.
    fn unique_under(&self, under: Under, actual: TypeId) -> Option<TypeId>
        ensures means { option_map (table.type_at self.now) result ≡ matched.unique_below self.now.kinds under (table.type_at self.now actual) }
        ensures held { table.HoldsType self.now.items actual → IfSome result (λ t. table.HoldsType self.now.items t) }
    {
        match self.type_under(under, actual) {
            Some(t) => self.unique_part(t),
            None => None,
        }
    }

    /// The type whose `uni` is this one.
    fn unique_part(&self, t: TypeId) -> Option<TypeId>
        ensures means { option_map (table.type_at self.now) result ≡ matched.unique_part self.now.kinds (table.type_at self.now t) }
        ensures held { table.HoldsType self.now.items t → IfSome result (λ u. table.HoldsType self.now.items u) }
    {
        if self.is_unique_itself(t) {
            return Some(t);
        }
        match self.term(t) {
            Term::Uni(inner) => {
                if self.is_unique_itself(inner) {
                    None
                } else {
                    Some(inner)
                }
            }
            _ => None,
        }
    }

    /// Whether `uni` of a type is the type itself: a value type, Future or Promise.
    fn is_unique_itself(&self, t: TypeId) -> bool
        ensures { result ≡ matched.is_unique_itself self.now.kinds (table.type_at self.now t) }
    {
        match self.term(t) {
            Term::Of { kind, .. } => {
                self.is_value_kind(kind) || kind == FUTURE || kind == PROMISE
            }
            _ => false,
        }
    }
}
