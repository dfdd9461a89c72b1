//! Parcels that are cut from the heap and joined to a new one, and walks down a tree.
ghost use Rattle.std.specs.Prelude.{◌≡◌};

use crate::stage::Stage;
use crate::values::{id_at, told_values, value_at, values_from};
use ink_base::{Items, Value};
use ink_heap::Heap;
use ink_parcel::{CutFault, JoinFault, Parcel, cut, is_under, join};
use ink_sheet::Sheet;
use std::alloc::{AllocError, Global};

/// `cut @1 nil`: the trees of the values are cut out of the heap.
pub fn cut_out(
    alloc: Global,
    sheet: &mut Sheet,
    stage: &mut Stage,
    line: &str,
) -> Result<(), AllocError> {
    match cut(
        alloc,
        &mut stage.heap,
        Items::of(values_from(alloc, line, 1)?),
    ) {
        Ok(parcel) => {
            sheet.number(parcel.object_count());
            told_values(sheet, " objects of", parcel.values());
            stage.parcel = Some(parcel);
        }
        Err(CutFault::Absent(values)) => told_values(sheet, "absent, back", values.as_slice()),
        Err(CutFault::OutOfMemory(_)) => return Err(AllocError),
    }
    Ok(())
}

/// A new heap with the objects of a parcel, and its values.
fn joined(alloc: Global, parcel: Parcel) -> Result<(Heap, Items<Value>), JoinFault> {
    let mut heap = Heap::new(alloc);
    let values = join(&mut heap, parcel)?;
    Ok((heap, values))
}

/// `join`: a new heap stands in the place of the old one, to which the parcel is joined.
pub fn join_all(alloc: Global, sheet: &mut Sheet, stage: &mut Stage) {
    let Some(parcel) = stage.parcel.take() else {
        return sheet.text("nothing was cut");
    };
    match joined(alloc, parcel) {
        Err(_) => sheet.text("no memory"),
        Ok((heap, values)) => {
            stage.heap = heap;
            told_values(sheet, "joined", values.as_slice());
        }
    }
}

/// `under @4 @1`: whether object 4 is in the tree of a value.
pub fn under(alloc: Global, sheet: &mut Sheet, heap: &Heap, line: &str) -> Result<(), AllocError> {
    let value = value_at(alloc, line, 2)?;
    sheet.truth(is_under(alloc, heap, &id_at(line, 1), &value)?);
    Ok(())
}
