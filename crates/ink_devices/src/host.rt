//! The files and the streams of the system.
//!
//! They tell no content: nothing here can say what the system keeps. This is the edge at which the system is trusted.
ghost use Rattle.std.specs.Prelude.{◌≡◌, ℕ, ◌≤◌, length, Option, None, Err, IfSome};
ghost use Rattle.ink_devices.specs.Outside.{no_faults, TellsFault};

use crate::faults::{Faults, one_more};
use crate::outside::{Failed, FileFault, Files, Sink};
use ink_base::Text;
use std::alloc::Global;
use std::fs::File;
use std::io::{ErrorKind, Read, Write};
use std::marker::Model;
use std::rt::Files as FileSystem;
use std::{fs, io, str};

/// How often a write is made again that a signal has cut short.
const TRIES: u32 = 64;

/// The files of the system, each under its path, which is UTF-8.
#[derive(Drop)]
pub struct HostFiles<'a, R> {
    rt: &'a R,
    reads: Faults,
    writes: Faults,
}

impl<'a, R> Model for HostFiles<'a, R> {
    ghost use Rattle.ink_devices.specs.Host.{HostFilesView};

    ghost Value = { HostFilesView };

    ghost view = { λ f. record { reads = f.reads; writes = f.writes } };
}

impl<'a, R> HostFiles<'a, R> {
    /// The files of this runtime.
    pub fn new(rt: &'a R) -> HostFiles<'a, R>
        ensures { result ≡ record { reads = no_faults; writes = no_faults } }
    {
        HostFiles {
            rt,
            reads: Faults::none(),
            writes: Faults::none(),
        }
    }
}

impl<'a, R: FileSystem + AllocGlobal> Files for HostFiles<'a, R> {
    ghost held = { λ _. None };

    ghost read_faults = { λ f. f.reads };

    ghost write_faults = { λ f. f.writes };

    fn read(&mut self, alloc: Global, name: &Text, most: u64) -> Result<Vec<u8>, FileFault> {
        let told = name.copy(alloc)?;
        match read_file(self.rt, alloc, name.bytes(), most) {
            Ok(bytes) => Ok(bytes),
            Err(error) => Err(tell(&mut self.reads, told, error)),
        }
    }

    fn write(&mut self, name: &Text, bytes: &[u8]) -> Result<(), FileFault> {
        let told = name.copy(self.rt.alloc())?;
        match write_file(self.rt, name.bytes(), bytes) {
            Ok(()) => Ok(()),
            Err(_) => {
                // Also where the system lacks memory: the file may have been emptied by then.
                self.writes.tell(told);
                Err(FileFault::Failed)
            }
        }
    }
}

/// The first `most` bytes of the file at a path.
fn read_file<R: FileSystem>(rt: &R, alloc: Global, path: &[u8], most: u64) -> io::Result<Vec<u8>> {
    let mut bytes = Vec::new(alloc);
    File::open(rt, path_of(path)?)?
        .take(most)
        .read_to_end(&mut bytes)?;
    Ok(bytes)
}

/// Makes the file at a path hold these bytes.
fn write_file<R: FileSystem>(rt: &R, path: &[u8], bytes: &[u8]) -> io::Result<()> {
    fs::write(rt, path_of(path)?, bytes)
}

/// The path that a name is, where it is UTF-8.
fn path_of(name: &[u8]) -> io::Result<&str> {
    match str::from_utf8(name) {
        Ok(path) => Ok(path),
        Err(_) => Err(io::Error::from(ErrorKind::InvalidInput)),
    }
}

/// Counts a read that failed with its name, unless it only lacked memory.
fn tell(faults: &mut Faults, name: Text, error: io::Error) -> FileFault
    ensures { TellsFault {T = ℕ} (Err result) name faults.old faults.new }
{
    if error.kind() == ErrorKind::OutOfMemory {
        return FileFault::OutOfMemory;
    }
    faults.tell(name);
    FileFault::Failed
}

/// A stream of the system.
#[derive(Drop)]
pub struct HostSink<W> {
    writer: W,
    faults: u64,
}

impl<W> Model for HostSink<W> {
    ghost use Rattle.std.specs.Prelude.{ℕ};

    ghost Value = { ℕ };

    ghost view = { λ s. s.faults };
}

impl<W> HostSink<W> {
    /// The sink that writes to this stream. A contract sees how often its calls failed.
    pub fn new(writer: W) -> HostSink<W>
        ensures { result ≡ 0 }
    {
        HostSink { writer, faults: 0 }
    }
}

impl<W: Write> Sink for HostSink<W> {
    ghost contents = { λ _. None };

    ghost faults = { λ faults. faults };

    fn write(&mut self, piece: &[u8]) -> Result<usize, Failed> {
        match write_some(&mut self.writer, piece) {
            Some(count) if 0 < count || piece.is_empty() => Ok(count),
            _ => {
                self.faults = one_more(self.faults);
                Err(Failed)
            }
        }
    }
}

/// How many bytes of the piece a writer took, if it took any. A call that a signal has cut short is made again.
fn write_some<W: Write>(writer: &mut W, piece: &[u8]) -> Option<usize>
    ensures { IfSome result (λ count. count ≤ length piece.now) }
{
    for _ in 0..TRIES {
        match writer.write(piece) {
            Ok(count) => return Some(count),
            Err(error) if error.kind() == ErrorKind::Interrupted => {}
            Err(_) => return None,
        }
    }
    None
}
