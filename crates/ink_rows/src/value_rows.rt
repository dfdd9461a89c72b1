//! The rows that only compute, by number.
ghost use Rattle.std.specs.Prelude.{◌<◌};
ghost use Rattle.ink_code.specs.Prims.{value_rows};
ghost use Rattle.ink_code.specs.RowNumbers.{first_of_array};
ghost use Rattle.ink_rows.specs.Answers.{Answers};

use crate::bool_rows::bool_row;
use crate::computed::{Computed, RowFault};
use crate::int_rows::int_row;
use crate::text_rows::text_row;
use ink_base::{Limits, Value};
use ink_code::row_numbers::{FIRST_OF_BOOL, FIRST_OF_STRING};
use std::alloc::Global;

/// What the row of that number comes to, from the values that were moved to it. The rows are those of Int, Bool and String.
/// Only a text takes memory: one that is given, and that of a panic.
#[tactic(auto, unfolding(ink_code::specs::Prims::value_rows))]
pub fn value_row(
    alloc: Global,
    limits: &Limits,
    row: u32,
    values: &[Value],
) -> Result<Computed, RowFault>
    requires { row < first_of_array }
    ensures { Answers result (value_rows limits.now row values.now) }
{
    if row < FIRST_OF_BOOL {
        int_row(alloc, row, values)
    } else if row < FIRST_OF_STRING {
        bool_row(alloc, row, values)
    } else {
        text_row(alloc, limits, row, values)
    }
}
