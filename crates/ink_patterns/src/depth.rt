//! How deep forms may stand in one another.
ghost use Rattle.std.specs.Prelude.{◌<◌, IfOk};

use std::alloc::AllocError;

/// How many nodes may stand in one another, so that none exhausts the stack. A module whose heights are in their limit
/// needs fewer.
pub const DEEPEST: u32 = 2048;

/// One node deeper. Where there are too many, it wants memory.
pub fn deeper(depth: u32) -> Result<u32, AllocError>
    ensures { IfOk result (λ left. left < depth) }
{
    match depth.checked_sub(1) {
        Some(left) => Ok(left),
        None => Err(AllocError),
    }
}
