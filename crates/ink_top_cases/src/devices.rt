//! Files and sinks in memory that fail by a plan.
ghost use Rattle.std.specs.Prelude.{◌≡◌, IfOk, Some};
ghost use Rattle.ink_devices.specs.Stored.{bytes_under};

use ink_base::Text;
use ink_devices::{Failed, FileFault, Files, MemFiles, MemSink, Sink};
use std::alloc::{AllocError, Global};

/// More bytes than a case writes.
const ROOM: u64 = 1000;

/// What the read of the file comes to.
#[derive(Clone, Copy)]
pub enum Reading {
    Bytes,
    Fault,
    NoMemory,
}

/// How a sink fails.
#[derive(Clone, Copy)]
pub struct Plan {
    /// The most bytes that its first call takes.
    pub first: u64,
    /// The numbers of the calls that fail.
    pub failing: &'static [u64],
}

/// How the devices of a call fail.
#[derive(Clone, Copy)]
pub struct Devices {
    pub reading: Reading,
    pub out: Plan,
    pub err: Plan,
}

/// Files in memory, for whose reads there may be no memory.
#[derive(Drop)]
pub struct CaseFiles {
    files: MemFiles,
    has_memory: bool,
}

impl CaseFiles {
    /// Files with one of them.
    pub fn with_file(
        alloc: Global,
        name: &str,
        bytes: Vec<u8>,
        reading: Reading,
    ) -> Result<CaseFiles, AllocError>
        ensures reads { IfOk result (λ files. files.files.reads.count ≡ 0) }
        ensures writes { IfOk result (λ files. files.files.writes.count ≡ 0) }
    {
        let mut held = Vec::new(alloc);
        held.push((Text::of(alloc, name.as_bytes())?, bytes))?;
        let failing = match reading {
            Reading::Bytes | Reading::NoMemory => Vec::new(alloc),
            Reading::Fault => vec![in alloc; 1]?,
        };
        Ok(CaseFiles {
            files: MemFiles::new(held, failing),
            has_memory: !matches!(reading, Reading::NoMemory),
        })
    }
}

impl Files for CaseFiles {
    ghost held = { λ f. Some (bytes_under f.files.files) };

    ghost read_faults = { λ f. f.files.reads };

    ghost write_faults = { λ f. f.files.writes };

    fn read(&mut self, alloc: Global, name: &Text, most: u64) -> Result<Vec<u8>, FileFault> {
        if self.has_memory {
            self.files.read(alloc, name, most)
        } else {
            Err(FileFault::OutOfMemory)
        }
    }

    fn write(&mut self, name: &Text, bytes: &[u8]) -> Result<(), FileFault> {
        self.files.write(name, bytes)
    }
}

/// A sink that fails by a plan.
pub fn sink(alloc: Global, plan: Plan) -> Result<MemSink, AllocError>
    ensures { IfOk result (λ sink. sink.faults ≡ 0) }
{
    MemSink::new(
        alloc,
        ROOM,
        Vec::from_slice(alloc, plan.failing)?,
        vec![in alloc; plan.first]?,
    )
}

/// A sink that counts its calls.
#[derive(Drop)]
pub struct CountingSink {
    pub sink: MemSink,
    pub calls: u64,
}

impl Sink for CountingSink {
    ghost contents = { λ s. Some s.sink.bytes };

    ghost faults = { λ s. s.sink.faults };

    fn write(&mut self, piece: &[u8]) -> Result<usize, Failed> {
        self.calls = self.calls.saturating_add(1);
        self.sink.write(piece)
    }
}
