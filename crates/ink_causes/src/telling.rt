//! How a cause is told.
ghost use Rattle.std.specs.Prelude.{◌≡◌, ◌<◌, ◌≤◌};
ghost use Rattle.ink_devices.specs.Outside.{greatest_count};
ghost use Rattle.ink_causes.specs.Devices.{sink_of};
ghost use Rattle.ink_causes.specs.Telling.{TriesLine, TellsMade, Tells};

use crate::cause::Cause;
use ink_devices::{Failed, Sink, write_whole};
use std::alloc::Global;

/// Tries a line once, and gives its cause. A failure changes nothing.
pub fn try_line<E: Sink>(cause: Cause, line: &[u8], err: &mut E) -> Cause
    ensures cause { result ≡ cause }
    ensures faults { E.faults err.old ≤ E.faults err.new }
    ensures told { TriesLine line.now (record { before = sink_of E.contents E.faults err.old; after = sink_of E.contents E.faults err.new }) }
{
    let _ = write_whole(err, line);
    cause
}

/// Tells a cause whose text takes memory, and gives the cause that then holds: the same, or want of memory for the
/// text, or a fault of the writing. What takes its place is told without memory.
fn tell_made<E: Sink>(alloc: Global, cause: Cause, name: &[u8], report: &[u8], err: &mut E) -> Cause
    requires { E.faults err.old < greatest_count }
    ensures { TellsMade cause result name.now report.now (record { before = sink_of E.contents E.faults err.old; after = sink_of E.contents E.faults err.new }) }
{
    let Ok(text) = cause.text(alloc, name, report) else {
        return try_line(Cause::OutOfMemory, b"out of memory\n", err);
    };
    match write_whole(err, &text) {
        Ok(()) => cause,
        Err(Failed) => try_line(Cause::WriteFault, b"write fault\n", err),
    }
}

/// Tells the cause of a call, and gives the cause that then holds. `name` is the name of the file that was to be read, and
/// `report` the report of a panic.
///
/// Nothing is told of a run that came to its end, of a module that is accepted, and of a text that was written. A write
/// fault and want of memory are told without memory, by one try, and hold in any case.
pub fn tell<E: Sink>(alloc: Global, cause: Cause, name: &[u8], report: &[u8], err: &mut E) -> Cause
    requires { E.faults err.old < greatest_count }
    ensures { Tells cause result name.now report.now (record { before = sink_of E.contents E.faults err.old; after = sink_of E.contents E.faults err.new }) }
{
    match cause {
        Cause::Quiet | Cause::Accepted | Cause::Written => cause,
        Cause::WriteFault => try_line(Cause::WriteFault, b"write fault\n", err),
        Cause::OutOfMemory => try_line(Cause::OutOfMemory, b"out of memory\n", err),
        told => tell_made(alloc, told, name, report, err),
    }
}
