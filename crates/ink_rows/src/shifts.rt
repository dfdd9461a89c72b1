//! The shifts of Int.
#![tactic(auto, unfolding(ink_code::specs::Machine::after))]

ghost use Rattle.std.specs.Prelude.{◌≡◌};
ghost use Rattle.ink_code.specs.IntRows.{shift_of, shift_up_row, shift_down_row};
ghost use Rattle.ink_rows.specs.Answers.{Answers};

use crate::computed::{Computed, RowFault};
use crate::operands::ints;
use ink_base::{Text, Value};
use std::alloc::Global;

/// The number of bits by which a shift shifts, which is from 0 to 63.
fn shift_of(bits: i64) -> Option<u32>
    ensures { result ≡ shift_of bits }
{
    if 0 <= bits && bits < 64 {
        Some(bits as u32)
    } else {
        None
    }
}

/// A number with its bits moved up by so many places. Those past the 64th are lost.
#[tactic(auto, unfolding(ink_code::specs::Machine::after, ink_code::specs::IntRows::shift_up_row))]
pub fn shift_up(alloc: Global, values: &[Value]) -> Result<Computed, RowFault>
    ensures { Answers result (shift_up_row values.now) }
{
    let (a, b) = ints(values)?;
    match shift_of(b) {
        Some(bits) => Ok(Computed::Gives(Value::Int(a << bits))),
        None => Ok(Computed::Raises(Text::of(alloc, b"shift out of range")?)),
    }
}

/// A number with its bits moved down by so many places. Its sign stays.
#[tactic(auto, unfolding(ink_code::specs::Machine::after, ink_code::specs::IntRows::shift_down_row))]
pub fn shift_down(alloc: Global, values: &[Value]) -> Result<Computed, RowFault>
    ensures { Answers result (shift_down_row values.now) }
{
    let (a, b) = ints(values)?;
    match shift_of(b) {
        Some(bits) => Ok(Computed::Gives(Value::Int(a >> bits))),
        None => Ok(Computed::Raises(Text::of(alloc, b"shift out of range")?)),
    }
}
