//! How what is called takes its receiver.

use crate::rows::{mode_of_row, row_of};
use ink_findings::Target;
use ink_forms::Mode;
use ink_names::{SlotNumber, Tables, TraitEntry, TraitMethodEntry};

/// The last of these traits whose slots begin at this one or before it, as the number of those up to it.
fn traits_up_to(traits: &[TraitEntry], slot: SlotNumber) -> usize {
    let mut low: usize = 0;
    let mut high = traits.len();
    while low < high {
        let middle = low + (high - low) / 2;
        if traits[middle].first_slot <= slot {
            low = middle + 1;
        } else {
            high = middle;
        }
    }
    low
}

/// The method of a trait at a slot.
pub(crate) fn slot_entry(tables: &Tables, slot: SlotNumber) -> Option<&TraitMethodEntry> {
    let traits = tables.traits();
    let count = traits_up_to(traits, slot);
    let entry = traits.get(count.checked_sub(1)?)?;
    let index = slot.checked_sub(entry.first_slot)?;
    entry.methods.get(index as usize)
}

/// How a method takes its receiver, by its kind or by that of its row. Of a number that is no method's it is as by `fn`.
pub fn mode_of(tables: &Tables, target: Target) -> Mode {
    match target {
        Target::Method(number) => match tables.method(number) {
            Some(entry) => entry.mode,
            None => Mode::Plain,
        },
        Target::Bound(slot) => match slot_entry(tables, slot) {
            Some(entry) => entry.mode,
            None => Mode::Plain,
        },
        Target::Row(number) => match row_of(number) {
            Some(row) => mode_of_row(row.mode),
            None => Mode::Plain,
        },
    }
}

/// Whether a call is a message.
pub fn is_async_of(tables: &Tables, target: Target) -> bool {
    match target {
        Target::Method(number) => match tables.method(number) {
            Some(entry) => entry.is_async,
            None => false,
        },
        _ => false,
    }
}
