//! Which type has which trait.

use crate::allowed::is_impl_allowed;
use ink_base::Rule;
use ink_names::{ImplEntry, Impls, KindId, Least, Tables, TraitId};
use std::alloc::AllocError;

/// Puts that a type has an impl of a trait. Another one of that trait breaks the rule.
fn register_trait(
    impls: &mut Impls,
    least: &mut Least,
    place: u32,
    kind: KindId,
    of_trait: TraitId,
) -> Result<(), AllocError> {
    if impls.has(kind, of_trait) {
        least.break_at(Rule::DuplicateImpl, place);
        return Ok(());
    }
    impls.put_trait(kind, of_trait)
}

/// Puts the trait of an impl that is allowed there. Any other breaks the rule, and gives its type no trait.
fn register(
    tables: &Tables,
    impls: &mut Impls,
    least: &mut Least,
    entry: &ImplEntry,
) -> Result<(), AllocError> {
    if !is_impl_allowed(tables, entry) {
        least.break_at(Rule::WrongSignature, entry.place);
        return Ok(());
    }
    match entry.of_trait {
        Some(of_trait) => register_trait(impls, least, entry.place, entry.kind, of_trait),
        None => Ok(()),
    }
}

/// Puts the traits of all these impls.
pub(crate) fn register_all(
    tables: &Tables,
    impls: &mut Impls,
    least: &mut Least,
    entries: &[ImplEntry],
) -> Result<(), AllocError> {
    for entry in entries {
        register(tables, impls, least, entry)?;
    }
    Ok(())
}
