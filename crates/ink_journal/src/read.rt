//! A file read.
ghost use Rattle.std.specs.Prelude.{◌≡◌, ◌↔◌, ◌++◌, List, [], ℕ, IsTrue, IfOk, OnOk, option_to_list};
ghost use Rattle.ink_base.specs.Limits.{limit_of};
ghost use Rattle.ink_base.specs.declared.limits.Limit.TheVariants.{Events};
ghost use Rattle.ink_journal.specs.File.{IsFile, Leaves};
ghost use Rattle.ink_journal.specs.Fault.{IfBad};
ghost use Rattle.ink_journal.specs.Reading.{Goes};

use crate::step::{Awaited, Digit, behind};
use ink_base::{Journal, Limit, Limits};
use std::alloc::{AllocError, Global};

/// Why bytes give no journal.
#[derive(Drop)]
pub enum JournalFault {
    /// They are no journal's file. So many bytes at their front begin one, and with the next byte, if there is one, they
    /// don't.
    Bad(u64),
    /// There was no memory. It says nothing of the bytes.
    OutOfMemory,
}

impl From<AllocError> for JournalFault {
    ghost use Rattle.ink_journal.specs.declared.read.JournalFault.{JournalFault};

    ghost from_gives = { λ _ fault. fault ≡ JournalFault.OutOfMemory };

    fn from(_: AllocError) -> JournalFault {
        JournalFault::OutOfMemory
    }
}

/// Adds an entry, if there is one.
fn add(journal: &mut Journal, ended: Option<u32>) -> Result<(), AllocError>
    ensures { OnOk result (journal.new.entries ≡ journal.old.entries ++ option_to_list ended) }
{
    if let Some(process) = ended {
        journal.reserve(1)?;
        journal.add(process);
    }
    Ok(())
}

/// Whether a file may end here.
fn is_end(here: Awaited) -> bool
    ensures { (most : ℕ) (entries : List ℕ) → Goes most here [] entries ↔ (IsTrue result × (entries ≡ [])) }
{
    match here {
        Awaited::Entry { left, .. } => left == 0,
        Awaited::Front(_) => false,
        Awaited::Count { .. } => false,
    }
}

/// Reads the file of a journal, which has at most as many entries as a run may have events.
///
/// `Bad` tells how many bytes are right: a byte of the mark or of the format that is another, the first byte of the
/// count that no allowed count has there, the last byte of an entry that is 0, the first byte behind the last entry, or
/// the end where bytes are missing.
pub fn read_journal(alloc: Global, bytes: &[u8], limits: &Limits) -> Result<Journal, JournalFault>
    ensures journal { IfOk result (λ journal. IsFile (limit_of Events limits.now) bytes.now journal.entries) }
    ensures only { IfOk result (λ journal. (entries : List ℕ) → IsFile (limit_of Events limits.now) bytes.now entries → entries ≡ journal.entries) }
    ensures bad { IfBad result (Leaves (limit_of Events limits.now) bytes.now) }
{
    let most = limits.get(Limit::Events) as u32;
    let mut journal = Journal::new(alloc);
    let mut here = Awaited::Front(0);
    for (right, byte) in bytes.iter().enumerate() {
        let Some(step) = behind(here, *byte, most) else {
            return Err(JournalFault::Bad(right as u64));
        };
        add(&mut journal, step.ended)?;
        here = step.next;
    }
    if is_end(here) {
        Ok(journal)
    } else {
        Err(JournalFault::Bad(bytes.len() as u64))
    }
}
