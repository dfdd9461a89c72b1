//! New types, in normal form.
//!
//! A call that fails leaves the table as it was, and any other only adds to it.
ghost use Rattle.std.specs.Prelude.{◌≡◌, ℕ, ◌+◌, ◌<◌, ◌≤◌, ◌↔◌, IsTrue, MatchBool, length, take, Some, OnOk, OnErr, IfOk, IsErrOf, slice_get};
ghost use Rattle.ink_types.specs.TypeTerms as types;
ghost use Rattle.ink_types.specs.Table as table;

use crate::kind::{FUTURE, NEVER, PROMISE};
use crate::term::{ArgumentList, BorrowFault, Key, Term, TypeId};
use crate::types::Types;
use ink_base::BorrowKind;
use std::alloc::AllocError;

impl Types {
    /// The type of a parameter.
    pub fn parameter(&mut self, number: u32) -> Result<TypeId, AllocError>
        ensures keeps { table.Keeps self.old self.new }
        ensures held { IfOk result (λ t. table.HoldsType self.new.items t) }
        ensures means { IfOk result (λ t. table.type_at self.new t ≡ types.Parameter number) }
        ensures refused { OnErr result (self.new ≡ self.old) }
    {
        self.put(Term::Parameter(number))
    }

    /// The type of a kind with these arguments.
    pub fn of(&mut self, kind: u32, arguments: &[TypeId]) -> Result<TypeId, AllocError>
        ensures keeps { table.Keeps self.old self.new }
        ensures held { IfOk result (λ t. table.HoldsType self.new.items t) }
        ensures means { IfOk result (λ t. table.type_at self.new t ≡ types.Of kind (types.terms (table.types_at self.old arguments.now))) }
        ensures refused { OnErr result (self.new ≡ self.old) }
    {
        let before = self.count();
        let made = self.put_of(kind, arguments, before);
        self.kept(before, made)
    }

    /// `uni` of a type. That of a value type, of Future and of Promise is the type itself.
    ///
    /// Of a borrow it is a type too, which is never written: the caller refuses it.
    pub fn unique_of(&mut self, t: TypeId) -> Result<TypeId, AllocError>
        ensures keeps { table.Keeps self.old self.new }
        ensures held { IfOk result (λ t. table.HoldsType self.new.items t) }
        ensures means { IfOk result (λ u. table.type_at self.new u ≡ types.uni_of self.old.kinds (table.type_at self.old t)) }
        ensures refused { OnErr result (self.new ≡ self.old) }
    {
        let before = self.count();
        let made = self.put_unique(t, before);
        self.kept(before, made)
    }

    /// A borrow of a type. That of a value type is the type itself.
    ///
    /// `Unborrowable` comes exactly for `uni T`, Future and Promise.
    pub fn borrow_of(&mut self, kind: BorrowKind, t: TypeId) -> Result<TypeId, BorrowFault>
        ensures keeps { table.Keeps self.old self.new }
        ensures held { IfOk result (λ t. table.HoldsType self.new.items t) }
        ensures means { IfOk result (λ u. table.type_at self.new u ≡ types.borrow_of self.old.kinds kind (table.type_at self.old t)) }
        ensures unborrowable { IsErrOf result BorrowFault.Unborrowable ↔ IsTrue (types.is_unborrowable (table.type_at self.old t)) }
        ensures refused { OnErr result (self.new ≡ self.old) }
    {
        if self.is_unborrowable(t) {
            return Err(BorrowFault::Unborrowable);
        }
        let before = self.count();
        let made = self.put_borrow(kind, t, before);
        let borrow = self.kept(before, made)?;
        Ok(borrow)
    }

    /// Takes back what was added for a type that wasn't made.
    pub(crate) fn kept(
        &mut self,
        before: u32,
        made: Result<TypeId, AllocError>,
    ) -> Result<TypeId, AllocError>
        ensures same { result ≡ made }
        ensures made { OnOk result (self.new ≡ self.old) }
        ensures taken_back { OnErr result (self.new ≡ record self.old { items = take before self.old.items }) }
    {
        if made.is_err() {
            self.shorten(before);
        }
        made
    }

    fn put_of(&mut self, kind: u32, arguments: &[TypeId], before: u32) -> Result<TypeId, AllocError>
        requires { before ≤ length self.old.items }
        ensures keeps { table.Keeps self.old self.new }
        ensures held { IfOk result (λ t. table.HoldsType self.new.items t) }
        ensures means { IfOk result (λ t. table.type_at self.new t ≡ types.Of kind (types.terms (table.types_in (take before self.old.items) arguments.now))) }
    {
        let arguments = self.put_list(arguments, before)?;
        self.put(Term::Of { kind, arguments })
    }

    fn put_unique(&mut self, t: TypeId, before: u32) -> Result<TypeId, AllocError>
        requires { before ≤ length self.old.items }
        ensures keeps { table.Keeps self.old self.new }
        ensures held { IfOk result (λ t. table.HoldsType self.new.items t) }
        ensures means { IfOk result (λ u. table.type_at self.new u ≡ types.uni_of self.old.kinds (table.type_in (take before self.old.items) t)) }
    {
        let t = self.settled(t, before)?;
        self.put_uni(t)
    }

    fn put_borrow(&mut self, kind: BorrowKind, t: TypeId, before: u32) -> Result<TypeId, AllocError>
        requires { before ≤ length self.old.items }
        ensures keeps { table.Keeps self.old self.new }
        ensures held { IfOk result (λ t. table.HoldsType self.new.items t) }
        ensures means { IfOk result (λ u. table.type_at self.new u ≡ types.borrow_of self.old.kinds kind (table.type_in (take before self.old.items) t)) }
    {
        let t = self.settled(t, before)?;
        match kind {
            BorrowKind::Ref => self.put_ref(t),
            BorrowKind::Mut => self.put_mut(t),
        }
    }

    /// The list of what these numbers stood for when so many were given. It is made from its end, by a loop, since a list
    /// may be as long as a source.
    fn put_list(&mut self, arguments: &[TypeId], before: u32) -> Result<ArgumentList, AllocError>
        requires { before ≤ length self.old.items }
        ensures keeps { table.Keeps self.old self.new }
        ensures fits { IfOk result (λ l. table.HoldsList self.new.items l) }
        ensures means { IfOk result (λ l. table.list_at self.new l ≡ types.terms (table.types_in (take before self.old.items) arguments.now)) }
    {
        let mut list = ArgumentList::Empty;
        let mut left = arguments.len();
        while left > 0 {
            left -= 1;
            let argument = self.settled(arguments[left], before)?;
            list = self.put_cell(argument, list)?;
        }
        Ok(list)
    }

    /// A type that a number stood for when so many were given, by a number of its own.
    pub(crate) fn settled(&mut self, t: TypeId, before: u32) -> Result<TypeId, AllocError>
        requires { before ≤ length self.old.items }
        ensures keeps { table.Keeps self.old self.new }
        ensures fits { IfOk result (λ u. table.HoldsType self.new.items u) }
        ensures means { IfOk result (λ u. table.type_at self.new u ≡ table.type_in (take before self.old.items) t) }
    {
        if self.stands(t, before) {
            return Ok(t);
        }
        self.put(Term::Of {
            kind: NEVER,
            arguments: ArgumentList::Empty,
        })
    }

    /// Whether a type stood at a number when so many were given.
    #[tactic(auto, using(crate::proofs::Tables::get_taken, crate::proofs::Tables::get_past_taken))]
    fn stands(&self, t: TypeId, before: u32) -> bool
        requires { before ≤ length self.now.items }
        ensures { MatchBool result (table.HoldsType self.now.items t × (table.type_in (take before self.now.items) t ≡ table.type_at self.now t)) (table.type_in (take before self.now.items) t ≡ types.never) }
    {
        if t >= before {
            return false;
        }
        match self.key(t) {
            Some(Key::Term(_)) => true,
            _ => false,
        }
    }

    /// A term whose parts stand there, and which is in normal form.
    pub(crate) fn put(&mut self, term: Term) -> Result<TypeId, AllocError>
        requires { table.TermFits self.old.items term }
        ensures keeps { table.Keeps self.old self.new }
        ensures fits { IfOk result (λ t. table.HoldsType self.new.items t) }
        ensures means { IfOk result (λ t. table.type_at self.new t ≡ table.grown_type self.old.items term) }
        ensures refused { OnErr result (self.new ≡ self.old) }
    {
        self.number_of(Key::Term(term))
    }

    /// A list of arguments by its first and the rest.
    pub(crate) fn put_cell(
        &mut self,
        first: TypeId,
        rest: ArgumentList,
    ) -> Result<ArgumentList, AllocError>
        requires first { table.HoldsType self.old.items first }
        requires rest { table.HoldsList self.old.items rest }
        ensures keeps { table.Keeps self.old self.new }
        ensures fits { IfOk result (λ l. table.HoldsList self.new.items l) }
        ensures means { IfOk result (λ l. table.list_at self.new l ≡ types.AndTerm (table.type_at self.old first) (table.list_at self.old rest)) }
        ensures refused { OnErr result (self.new ≡ self.old) }
    {
        let number = self.number_of(Key::Arguments(first, rest))?;
        Ok(ArgumentList::Cell(number))
    }

    /// `ref` of a type that stands there.
    #[tactic(auto, unfolding(crate::specs::TypeTerms::ref_of))]
    pub(crate) fn put_ref(&mut self, t: TypeId) -> Result<TypeId, AllocError>
        requires { table.HoldsType self.old.items t }
        ensures keeps { table.Keeps self.old self.new }
        ensures fits { IfOk result (λ u. table.HoldsType self.new.items u) }
        ensures means { IfOk result (λ u. table.type_at self.new u ≡ types.ref_of self.old.kinds (table.type_at self.old t)) }
    {
        match self.term(t) {
            Term::Ref(_) => Ok(t),
            Term::Mut(inner) => self.put(Term::Ref(inner)),
            Term::Of { kind, .. } => {
                if self.is_value_kind(kind) {
                    return Ok(t);
                }
                self.put(Term::Ref(t))
            }
            Term::Parameter(_) | Term::Uni(_) => self.put(Term::Ref(t)),
        }
    }

    /// `mut` of a type that stands there.
    #[tactic(auto, unfolding(crate::specs::TypeTerms::mut_of))]
    pub(crate) fn put_mut(&mut self, t: TypeId) -> Result<TypeId, AllocError>
        requires { table.HoldsType self.old.items t }
        ensures keeps { table.Keeps self.old self.new }
        ensures fits { IfOk result (λ u. table.HoldsType self.new.items u) }
        ensures means { IfOk result (λ u. table.type_at self.new u ≡ types.mut_of self.old.kinds (table.type_at self.old t)) }
    {
        match self.term(t) {
            Term::Ref(_) | Term::Mut(_) => Ok(t),
            Term::Of { kind, .. } => {
                if self.is_value_kind(kind) {
                    return Ok(t);
                }
                self.put(Term::Mut(t))
            }
            Term::Parameter(_) | Term::Uni(_) => self.put(Term::Mut(t)),
        }
    }

    /// `uni` of a type that stands there.
    #[tactic(auto, unfolding(crate::specs::TypeTerms::uni_of))]
    pub(crate) fn put_uni(&mut self, t: TypeId) -> Result<TypeId, AllocError>
        requires { table.HoldsType self.old.items t }
        ensures keeps { table.Keeps self.old self.new }
        ensures fits { IfOk result (λ u. table.HoldsType self.new.items u) }
        ensures means { IfOk result (λ u. table.type_at self.new u ≡ types.uni_of self.old.kinds (table.type_at self.old t)) }
    {
        match self.term(t) {
            Term::Of { kind, .. } => {
                if self.is_value_kind(kind) || kind == FUTURE || kind == PROMISE {
                    return Ok(t);
                }
                self.put(Term::Uni(t))
            }
            _ => self.put(Term::Uni(t)),
        }
    }
}
