//! Choices and arrays: forms whose parts have one type.

use crate::room::{Spot, State};
use crate::values::{plain, value};
use ink_base::Rule;
use ink_forms::Choice;
use ink_types::{ARRAY, BOOL, NEVER, Term, TypeId, Types};
use std::alloc::AllocError;

/// What the arms of a choice came to so far.
#[derive(Clone, Copy)]
pub enum Arms {
    /// None of them gives a value. What is expected of the first that does is what is expected of the choice.
    Without(Option<TypeId>),
    /// The type of the first that gives a value, which is expected of the others.
    Typed(TypeId),
    /// The type of one that may be the first has no type.
    Lost,
}

/// No arms, of a choice of which this is expected.
pub fn start_arms(wanted: Option<TypeId>) -> Arms {
    Arms::Without(wanted)
}

impl Arms {
    /// What is expected of the next arm.
    pub fn wanted(self) -> Option<TypeId> {
        match self {
            Arms::Without(wanted) => wanted,
            Arms::Typed(of) => Some(of),
            Arms::Lost => None,
        }
    }

    /// The type of a choice with these arms.
    pub fn finish(self, state: &mut State, number: u32) -> Result<Option<TypeId>, AllocError> {
        let of = match self {
            Arms::Without(_) => state.signed.types.of(NEVER, &[])?,
            Arms::Typed(of) => of,
            Arms::Lost => return Ok(None),
        };
        state.typed.put(number, plain(of));
        Ok(Some(of))
    }
}

/// The arms with one more, whose value is of this type.
pub fn next_arm(types: &Types, arms: Arms, of: Option<TypeId>) -> Arms {
    match (arms, of) {
        (Arms::Without(_), None) => Arms::Lost,
        (Arms::Without(_), Some(of)) if !types.is_never(of) => Arms::Typed(of),
        _ => arms,
    }
}

/// What is expected of the items of an array of which this is expected.
pub fn item_wanted(types: &Types, wanted: Option<TypeId>) -> Option<TypeId> {
    let wanted = wanted?;
    match types.term(wanted) {
        Term::Of { kind, .. } => {
            if kind == ARRAY {
                types.argument(wanted, 0)
            } else {
                None
            }
        }
        _ => None,
    }
}

/// An array whose items are of this type. One without items, of which no array is expected, is open.
pub fn array_rule(
    state: &mut State,
    spot: Spot,
    item: Option<TypeId>,
    is_empty: bool,
) -> Result<Option<TypeId>, AllocError> {
    match item {
        Some(item) => {
            let of = state.signed.types.of(ARRAY, &[item])?;
            Ok(value(state, spot, plain(of)))
        }
        None => {
            if is_empty {
                let least = &mut state.signed.least;
                least.break_at(Rule::NeedsAnnotation, spot.place);
            }
            Ok(None)
        }
    }
}

/// What is expected of the scrutinee of a choice, and of a guard: a condition is a Bool.
pub fn condition_wanted(state: &mut State, choice: Choice) -> Result<Option<TypeId>, AllocError> {
    match choice {
        Choice::If | Choice::While | Choice::And | Choice::Or => {
            let of = state.signed.types.of(BOOL, &[])?;
            Ok(Some(of))
        }
        Choice::Match | Choice::Try => Ok(None),
    }
}
