//! The world outside, as traits: files, a sink for bytes, and a gate for workers.
//!
//! Ghost members say what files and sinks hold, where they tell it, and how often their calls failed. A count stops
//! at the greatest `u64`, so what is said of a rising count is said of counts below that.
ghost use Rattle.std.specs.Prelude.{◌≡◌, ℕ, ◌+◌, ◌-◌, ◌^◌, ◌<◌, ◌≤◌, ◌⊎◌, List, ◌++◌, length, take, Option, IfOk, OnOk, OnErr};
ghost use Rattle.ink_devices.specs.declared.faults.Faults.{Faults};
ghost use Rattle.ink_devices.specs.Outside.{Directory, CountsFault, TellsFault, Reads, Writes, appended, CutsWrite};

use ink_base::Text;
use std::alloc::{AllocError, Global};

/// A call on a device that failed. The object that was called has counted it.
#[derive(Clone, Copy)]
pub struct Failed;

/// Why a call on files gives nothing.
#[derive(Clone, Copy)]
pub enum FileFault {
    /// The files failed, which they have counted with the name.
    Failed,
    /// There was no memory, and nothing was done.
    OutOfMemory,
}

impl From<AllocError> for FileFault {
    ghost use Rattle.ink_devices.specs.declared.outside.FileFault.TheVariants.{OutOfMemory};

    ghost from_gives = { λ _ fault. fault ≡ OutOfMemory };

    fn from(_error: AllocError) -> FileFault {
        FileFault::OutOfMemory
    }
}

/// Named files.
pub trait Files {
    ghost held: { Self → Option Directory };

    ghost read_faults: { Self → Faults };

    ghost write_faults: { Self → Faults };

    /// The first `most` bytes under the name, or all where there are fewer. Where there is no such name, the call
    /// fails.
    fn read(&mut self, alloc: Global, name: &Text, most: u64) -> Result<Vec<u8>, FileFault>
        ensures bytes { IfOk result (λ found. Reads (held self.old) name.now most found.items) }
        ensures fault { TellsFault result name.now (read_faults self.old) (read_faults self.new) }
        ensures held { held self.new ≡ held self.old }
        ensures write_faults { write_faults self.new ≡ write_faults self.old };

    /// Puts the bytes under the name. After a call that failed, anything may stand under that name.
    fn write(&mut self, name: &Text, bytes: &[u8]) -> Result<(), FileFault>
        ensures held { Writes result name.now bytes.now (held self.old) (held self.new) }
        ensures fault { TellsFault result name.now (write_faults self.old) (write_faults self.new) }
        ensures read_faults { read_faults self.new ≡ read_faults self.old };
}

/// Where bytes go, in order.
pub trait Sink {
    ghost contents: { Self → Option (List ℕ) };

    ghost faults: { Self → ℕ };

    /// Takes some bytes from the front of the piece, at least one where there is one, and says how many. A device
    /// that takes nothing of such a piece has failed.
    fn write(&mut self, piece: &[u8]) -> Result<usize, Failed>
        ensures taken { IfOk result (λ n. (n ≤ length piece.now) × (length piece.now ≡ 0 ⊎ 1 ≤ n)) }
        ensures contents { IfOk result (λ n. contents self.new ≡ appended (contents self.old) (take n piece.now)) }
        ensures ok { OnOk result (faults self.new ≡ faults self.old) }
        ensures fault { OnErr result (CountsFault (faults self.old) (faults self.new)) }
        ensures cut { OnErr result (contents self.new ≡ contents self.old) };
}

/// Where a worker passes before each slice that it runs.
pub trait Gate {
    /// Called at the start of each slice, with the numbers of the worker and of its process.
    fn enter(&self, worker: u32, process: u32);
}

/// A gate that lets every worker pass.
#[derive(Clone, Copy)]
pub struct OpenGate;

impl Gate for OpenGate {
    fn enter(&self, _worker: u32, _process: u32) {}
}

/// Writes all of the bytes, piece by piece, and makes no call after one that failed.
pub fn write_whole<K: Sink>(sink: &mut K, bytes: &[u8]) -> Result<(), Failed>
    ensures contents { OnOk result (K.contents sink.new ≡ appended (K.contents sink.old) bytes.now) }
    ensures ok { OnOk result (K.faults sink.new ≡ K.faults sink.old) }
    ensures fault { OnErr result (CountsFault (K.faults sink.old) (K.faults sink.new)) }
    ensures cut { OnErr result (CutsWrite (K.contents sink.old) (K.contents sink.new) bytes.now) }
{
    let mut written = 0;
    while written < bytes.len() {
        written += sink.write(&bytes[written..])?;
    }
    Ok(())
}
