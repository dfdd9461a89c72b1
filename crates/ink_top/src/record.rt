//! The file that gets the journal of a run.
ghost use Rattle.std.specs.Prelude.{◌≡◌, ◌<◌, ◌↔◌, IsTrue};
ghost use Rattle.ink_devices.specs.Outside.{greatest_count};
ghost use Rattle.ink_causes.specs.Devices.{files_of, sink_of};
ghost use Rattle.ink_top.specs.Keeping.{IsKept, KeepsJournal};

use ink_base::{Journal, Text};
use ink_causes::{Cause, try_line};
use ink_devices::{FileFault, Files, Sink};
use ink_journal::write_journal;
use std::alloc::Global;

/// The number of entries from which on a journal has no file.
const TOO_MANY: u64 = 1 << 32;

/// Whether the journal goes to its file after this cause: the run came to an end or to a limit, and nothing failed.
pub fn is_kept(cause: &Cause) -> bool
    ensures { IsTrue result ↔ IsKept cause.now }
{
    match cause {
        Cause::Quiet => true,
        Cause::Waiting(_) => true,
        Cause::Panicked(_) => true,
        Cause::EventLimit(_) => true,
        Cause::LocalLimit(_, _) => true,
        Cause::RoundLimit(_) => true,
        _ => false,
    }
}

/// Writes the journal to a file, and gives the cause that then holds: the same, or want of memory, or a fault of the
/// writing. What takes its place is told without memory.
pub fn record<F: Files, E: Sink>(
    alloc: Global,
    cause: Cause,
    file: &Text,
    journal: &Journal,
    files: &mut F,
    err: &mut E,
) -> Cause
    requires { (F.write_faults files.old).count < greatest_count }
    ensures { KeepsJournal cause result file.now journal.now.entries (record {
      before = files_of F.held F.read_faults F.write_faults files.old;
      after = files_of F.held F.read_faults F.write_faults files.new;
    }) (record { before = sink_of E.contents E.faults err.old; after = sink_of E.contents E.faults err.new }) }
{
    if journal.len() >= TOO_MANY {
        return try_line(Cause::OutOfMemory, b"out of memory\n", err);
    }
    let Ok(bytes) = write_journal(alloc, journal) else {
        return try_line(Cause::OutOfMemory, b"out of memory\n", err);
    };
    match files.write(file, &bytes) {
        Ok(()) => cause,
        Err(FileFault::Failed) => try_line(Cause::WriteFault, b"write fault\n", err),
        Err(FileFault::OutOfMemory) => try_line(Cause::OutOfMemory, b"out of memory\n", err),
    }
}
