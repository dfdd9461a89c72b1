//! Which method a type has in which slot.

use ink_base::Items;
use ink_checked::Checked;
use ink_code::Impl;
use ink_names::{ImplEntry, Impls, KindId, SlotNumber, Tables};
use std::alloc::{AllocError, Global};

/// The slots of a trait: the first, and the one behind the last.
fn slots_of(tables: &Tables, entry: &ImplEntry) -> (SlotNumber, SlotNumber) {
    let Some(number) = entry.of_trait else {
        return (0, 0);
    };
    match tables.trait_entry(number) {
        Some(found) => {
            let count = found.methods.len().min(u32::MAX as usize) as u32;
            (found.first_slot, found.first_slot.saturating_add(count))
        }
        None => (0, 0),
    }
}

/// Adds the methods that a type has in some slots.
fn add_slots(
    impls: &Impls,
    kind: KindId,
    slots: (SlotNumber, SlotNumber),
    filled: &mut Vec<Impl>,
) -> Result<(), AllocError> {
    let (first, end) = slots;
    for slot in first..end {
        if let Some(method) = impls.lookup(kind, slot) {
            filled.push(Impl { kind, slot, method })?;
        }
    }
    Ok(())
}

/// Which method each type has in each slot of its traits.
pub(crate) fn impls_of(alloc: Global, checked: &Checked) -> Result<Items<Impl>, AllocError> {
    let tables = checked.tables();
    let mut filled = Vec::new(alloc);
    for entry in tables.impls() {
        add_slots(
            checked.impls(),
            entry.kind,
            slots_of(tables, entry),
            &mut filled,
        )?;
    }
    Ok(Items::of(filled))
}
