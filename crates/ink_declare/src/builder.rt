//! What the entries of a module are made with.

use crate::duplicates::NameList;
use crate::known::Known;
use ink_forms::Arena;
use ink_names::{Least, SlotNumber, Tables};
use ink_tables::Names;
use std::alloc::{AllocError, Global};

/// The tables so far, what is known so far, and the least refusal so far.
#[derive(Drop)]
pub(crate) struct Builder<'a> {
    pub alloc: Global,
    pub names: &'a Names,
    pub arena: &'a Arena,
    pub known: Known,
    pub tables: Tables,
    pub least: Least,
    /// The names of the module's methods.
    pub functions: NameList,
    /// The slot of the next method of a trait.
    pub next_slot: SlotNumber,
}

/// The number behind this one. The greatest is want of memory too.
pub(crate) fn number_behind(number: u32) -> Result<u32, AllocError> {
    number.checked_add(1).ok_or(AllocError)
}

/// A count as a number. The greatest number is want of memory too.
pub(crate) fn number_of(count: usize) -> Result<u32, AllocError> {
    if count >= u32::MAX as usize {
        return Err(AllocError);
    }
    Ok(count as u32)
}
