//! Types with arguments in place of their parameters.
ghost use Rattle.std.specs.Prelude.{◌≡◌, ℕ, ◌+◌, ◌<◌, ◌≤◌, length, take, Some, OnOk, OnErr, IfOk, slice_get};
ghost use Rattle.ink_types.specs.TypeTerms as types;
ghost use Rattle.ink_types.specs.Table as table;

use crate::term::{ArgumentList, Term, TypeId};
use crate::types::Types;
use std::alloc::AllocError;

impl Types {
    /// A type with each parameter replaced by its argument, in normal form. A parameter that has no argument stays.
    ///
    /// Where a `uni` of a borrow would come, it does: `uni_of_borrow` tells.
    pub fn substitute(&mut self, t: TypeId, arguments: &[TypeId]) -> Result<TypeId, AllocError>
        ensures keeps { table.Keeps self.old self.new }
        ensures held { IfOk result (λ t. table.HoldsType self.new.items t) }
        ensures means { IfOk result (λ u. table.type_at self.new u ≡ types.substitute self.old.kinds (table.types_at self.old arguments.now) (table.type_at self.old t)) }
        ensures refused { OnErr result (self.new ≡ self.old) }
    {
        let before = self.count();
        let made = self.fill(t, arguments, before);
        self.kept(before, made)
    }

    #[cycle(fill)]
    #[tactic(auto, unfolding(crate::specs::TypeTerms::substitute, crate::specs::TypeTerms::substitute_all))]
    fn fill(&mut self, t: TypeId, arguments: &[TypeId], before: u32) -> Result<TypeId, AllocError>
        requires { before ≤ length self.old.items }
        ensures keeps { table.Keeps self.old self.new }
        ensures fits { IfOk result (λ u. table.HoldsType self.new.items u) }
        ensures means { IfOk result (λ u. table.type_at self.new u ≡ types.substitute self.old.kinds (table.types_in (take before self.old.items) arguments.now) (table.type_at self.old t)) }
    {
        match self.term(t) {
            Term::Parameter(number) => match arguments.get(number as usize) {
                Some(argument) => self.settled(*argument, before),
                None => self.put(Term::Parameter(number)),
            },
            Term::Of {
                kind,
                arguments: list,
            } => {
                let list = self.fill_list(list, arguments, before)?;
                self.put(Term::Of {
                    kind,
                    arguments: list,
                })
            }
            Term::Ref(inner) => {
                let inner = self.fill(inner, arguments, before)?;
                self.put_ref(inner)
            }
            Term::Mut(inner) => {
                let inner = self.fill(inner, arguments, before)?;
                self.put_mut(inner)
            }
            Term::Uni(inner) => {
                let inner = self.fill(inner, arguments, before)?;
                self.put_uni(inner)
            }
        }
    }

    #[cycle(fill)]
    #[tactic(auto, unfolding(crate::specs::TypeTerms::substitute, crate::specs::TypeTerms::substitute_all))]
    fn fill_list(
        &mut self,
        list: ArgumentList,
        arguments: &[TypeId],
        before: u32,
    ) -> Result<ArgumentList, AllocError>
        requires { before ≤ length self.old.items }
        ensures keeps { table.Keeps self.old self.new }
        ensures fits { IfOk result (λ l. table.HoldsList self.new.items l) }
        ensures means { IfOk result (λ l. table.list_at self.new l ≡ types.substitute_all self.old.kinds (table.types_in (take before self.old.items) arguments.now) (table.list_at self.old list)) }
    {
        match self.first_of(list) {
            None => Ok(ArgumentList::Empty),
            Some((first, rest)) => {
                let first = self.fill(first, arguments, before)?;
                let rest = self.fill_list(rest, arguments, before)?;
                self.put_cell(first, rest)
            }
        }
    }
}
