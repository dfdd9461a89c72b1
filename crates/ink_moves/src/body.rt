//! What is asked of the nodes of a body.

use crate::around::{Guard, Want};
use ink_exits::Exits;
use ink_findings::Typed;
use ink_forms::{Arena, Expr, Mode, Part};
use ink_members::mode_of;
use ink_names::{Resolution, Resolutions, Tables};
use ink_types::{TypeId, Types};
use std::alloc::Global;

/// What the phases before found of the bodies of a module.
#[derive(Clone, Copy)]
pub(crate) struct Bodies<'a> {
    pub alloc: Global,
    pub arena: &'a Arena,
    pub tables: &'a Tables,
    pub resolutions: &'a Resolutions,
    pub typed: &'a Typed,
    pub types: &'a Types,
    pub exits: &'a Exits,
}

/// Whether a value of a type is the one owner of what it is: one that is neither a value type nor a borrow.
fn is_owned(types: &Types, of: TypeId) -> bool {
    !types.is_value(of) && !types.is_borrow(of)
}

/// Whether a variable is seen as a view: in a guard that doesn't declare it.
fn is_view(guard: Option<Guard>, variable: u32) -> bool {
    match guard {
        Some(guard) => !guard.declares(variable),
        None => false,
    }
}

impl Bodies<'_> {
    /// The variable that an expression is, if it is one. A moved `self` is a variable too, and any other is never moved.
    pub(crate) fn variable(&self, number: u32) -> Option<u32> {
        match self.arena.expr(number).expr {
            Expr::Var { .. } | Expr::SelfValue => match self.resolutions.get(number) {
                Resolution::Variable(variable) => Some(variable),
                Resolution::SelfOf(method) => Some(method),
                _ => None,
            },
            _ => None,
        }
    }

    /// Whether a use of a variable gives it away: where its value is wanted, it is owned, and it is no view.
    pub(crate) fn is_moved(
        &self,
        number: u32,
        variable: u32,
        want: Want,
        guard: Option<Guard>,
    ) -> bool {
        match (want, self.typed.type_of(number)) {
            (Want::Value, Some(of)) => is_owned(self.types, of) && !is_view(guard, variable),
            _ => false,
        }
    }

    /// Whether an expression calls a method.
    pub(crate) fn is_call(&self, number: u32) -> bool {
        self.typed.target(number).is_some()
    }

    /// Whether an expression calls a method that takes its receiver away.
    pub(crate) fn moves_receiver(&self, number: u32) -> bool {
        match self.typed.target(number) {
            Some(target) => matches!(mode_of(self.tables, target), Mode::Move),
            None => false,
        }
    }

    /// What an expression wants of a path, behind the arguments or the written value.
    fn path_want(&self, number: u32) -> Want {
        match self.arena.expr(number).expr {
            Expr::Set { .. } => Want::Place,
            _ => {
                if self.moves_receiver(number) {
                    Want::Value
                } else {
                    Want::Look
                }
            }
        }
    }

    /// What an expression wants of a child in a step of its work.
    pub(crate) fn want(&self, number: u32, part: Part) -> Want {
        match part {
            Part::Early | Part::Late => self.path_want(number),
            Part::Whole => match self.arena.expr(number).expr {
                Expr::Borrow { .. } => Want::Look,
                _ => Want::Value,
            },
        }
    }
}
