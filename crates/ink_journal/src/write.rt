//! A journal written.
ghost use Rattle.std.specs.Prelude.{◌≡◌, ◌<◌, ◌^◌, length, slice_get, Some, IfOk};
ghost use Rattle.ink_journal.specs.File.{file};

use crate::step::FRONT;
use ink_base::Journal;
use std::alloc::{AllocError, Global};

/// The entry at an index.
fn entry(journal: &Journal, index: u64) -> u32
    requires { index < length journal.now.entries }
    ensures { slice_get journal.now.entries index ≡ Some result }
{
    journal.get(index).unwrap_or(0)
}

/// The bytes of a journal's file. An `AllocError` is want of memory.
pub fn write_journal(alloc: Global, journal: &Journal) -> Result<Vec<u8>, AllocError>
    requires { length journal.now.entries < 2 ^ 32 }
    ensures { IfOk result (λ bytes. bytes.items ≡ file journal.now.entries) }
{
    let mut bytes = Vec::new(alloc);
    bytes.extend_from_slice(&FRONT)?;
    bytes.extend_from_slice(&(journal.len() as u32).to_be_bytes())?;
    for index in 0..journal.len() {
        bytes.extend_from_slice(&entry(journal, index).to_be_bytes())?;
    }
    Ok(bytes)
}
