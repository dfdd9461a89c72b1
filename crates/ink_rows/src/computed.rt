//! What a row comes to.
ghost use Rattle.std.specs.Prelude.{◌≡◌};

use ink_base::{Text, Value};
use ink_code::Wrong;
use std::alloc::AllocError;

/// What a row comes to.
#[derive(Drop)]
pub enum Computed {
    /// A value.
    Gives(Value),
    /// A panic with this text.
    Raises(Text),
}

/// Why a row comes to nothing.
#[derive(Clone, Copy)]
pub enum RowFault {
    /// The operands aren't such as the row takes.
    Wrong(Wrong),
    /// There was no memory for a text.
    OutOfMemory,
}

impl From<AllocError> for RowFault {
    ghost use Rattle.ink_rows.specs.declared.computed.RowFault.{RowFault};

    ghost from_gives = { λ _ fault. fault ≡ RowFault.OutOfMemory };

    fn from(_: AllocError) -> RowFault {
        RowFault::OutOfMemory
    }
}

impl From<Wrong> for RowFault {
    ghost use Rattle.ink_rows.specs.declared.computed.RowFault.{RowFault};

    ghost from_gives = { λ why fault. fault ≡ RowFault.Wrong why };

    fn from(why: Wrong) -> RowFault {
        RowFault::Wrong(why)
    }
}
