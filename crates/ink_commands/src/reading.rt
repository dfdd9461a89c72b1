//! The files that are read.
ghost use Rattle.std.specs.Prelude.{◌≡◌, ◌<◌, List, ℕ, IfOk, OnOk, IfErr};
ghost use Rattle.ink_base.specs.Limits.{limit_of};
ghost use Rattle.ink_base.specs.declared.limits.Limit.TheVariants.{Events};
ghost use Rattle.ink_devices.specs.Outside.{greatest_count, Reads};
ghost use Rattle.ink_journal.specs.File.{IsFile};
ghost use Rattle.ink_causes.specs.Devices.{KeepsFiles, files_of};
ghost use Rattle.ink_commands.specs.Sources.{most_read, most_journal, IsUnread, IsNoJournal};

use ink_base::{Journal, Limit, Limits, Text};
use ink_causes::Cause;
use ink_devices::{FileFault, Files};
use ink_journal::{JournalFault, read_journal};
use std::alloc::Global;

/// How many bytes of a journal's file stand before its entries.
const JOURNAL_FRONT: u64 = 9;

/// How many bytes an entry has.
const ENTRY: u64 = 4;

/// The first bytes of a file, or the cause that there are none.
fn read_file<F: Files>(
    alloc: Global,
    file: &Text,
    most: u64,
    files: &mut F,
) -> Result<Vec<u8>, Cause>
    requires { (F.read_faults files.old).count < greatest_count }
    ensures bytes { IfOk result (λ bytes. Reads (F.held files.old) file.now most bytes.items) }
    ensures read { OnOk result (F.read_faults files.new ≡ F.read_faults files.old) }
    ensures unread { IfErr result (λ cause. IsUnread cause file.now (record {
      before = files_of F.held F.read_faults F.write_faults files.old;
      after = files_of F.held F.read_faults F.write_faults files.new;
    })) }
    ensures files { KeepsFiles (record {
      before = files_of F.held F.read_faults F.write_faults files.old;
      after = files_of F.held F.read_faults F.write_faults files.new;
    }) }
{
    match files.read(alloc, file, most) {
        Err(FileFault::Failed) => Err(Cause::ReadFault),
        Err(FileFault::OutOfMemory) => Err(Cause::OutOfMemory),
        Ok(bytes) => Ok(bytes),
    }
}

/// The first bytes of a source, one more than it may have, so that a longer one shows.
pub fn read_source<F: Files>(
    alloc: Global,
    file: &Text,
    limits: &Limits,
    files: &mut F,
) -> Result<Vec<u8>, Cause>
    requires { (F.read_faults files.old).count < greatest_count }
    ensures bytes { IfOk result (λ bytes. Reads (F.held files.old) file.now (most_read limits.now) bytes.items) }
    ensures read { OnOk result (F.read_faults files.new ≡ F.read_faults files.old) }
    ensures unread { IfErr result (λ cause. IsUnread cause file.now (record {
      before = files_of F.held F.read_faults F.write_faults files.old;
      after = files_of F.held F.read_faults F.write_faults files.new;
    })) }
    ensures files { KeepsFiles (record {
      before = files_of F.held F.read_faults F.write_faults files.old;
      after = files_of F.held F.read_faults F.write_faults files.new;
    }) }
{
    read_file(alloc, file, limits.get(Limit::Source) + 1, files)
}

/// The first bytes of a journal's file, one more than the longest may have.
pub fn read_journal_file<F: Files>(
    alloc: Global,
    file: &Text,
    limits: &Limits,
    files: &mut F,
) -> Result<Vec<u8>, Cause>
    requires { (F.read_faults files.old).count < greatest_count }
    ensures bytes { IfOk result (λ bytes. Reads (F.held files.old) file.now (most_journal limits.now) bytes.items) }
    ensures read { OnOk result (F.read_faults files.new ≡ F.read_faults files.old) }
    ensures unread { IfErr result (λ cause. IsUnread cause file.now (record {
      before = files_of F.held F.read_faults F.write_faults files.old;
      after = files_of F.held F.read_faults F.write_faults files.new;
    })) }
    ensures files { KeepsFiles (record {
      before = files_of F.held F.read_faults F.write_faults files.old;
      after = files_of F.held F.read_faults F.write_faults files.new;
    }) }
{
    let most = JOURNAL_FRONT + ENTRY * limits.get(Limit::Events) + 1;
    read_file(alloc, file, most, files)
}

/// The journal that the bytes of a file are.
pub fn journal_of(alloc: Global, bytes: &[u8], limits: &Limits) -> Result<Journal, Cause>
    ensures journal { IfOk result (λ journal. IsFile (limit_of Events limits.now) bytes.now journal.entries) }
    ensures only { IfOk result (λ journal. (entries : List ℕ) → IsFile (limit_of Events limits.now) bytes.now entries → entries ≡ journal.entries) }
    ensures bad { IfErr result (λ cause. IsNoJournal limits.now cause bytes.now) }
{
    match read_journal(alloc, bytes, limits) {
        Err(JournalFault::Bad(right)) => Err(Cause::BadJournal(right)),
        Err(JournalFault::OutOfMemory) => Err(Cause::OutOfMemory),
        Ok(journal) => Ok(journal),
    }
}
