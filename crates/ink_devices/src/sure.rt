//! Files and sinks that never fail.
ghost use Rattle.std.specs.Prelude.{◌≡◌, ℕ, ◌≤◌, ◌⊎◌, List, ◌++◌, length, take, Option, None, Some, Ok, IfOk, IfErr, IsSome, IsOkUnless};
ghost use Rattle.std.specs.Option.{option_copied};
ghost use Rattle.ink_devices.specs.declared.outside.FileFault.TheVariants.{OutOfMemory, Failed as HasFailed};
ghost use Rattle.ink_devices.specs.Outside.{no_faults, TellsFault, Reads, Writes};
ghost use Rattle.ink_devices.specs.Stored.{bytes_under, AreApart};

use crate::faults::Faults;
use crate::outside::{Failed, FileFault, Files, Sink};
use crate::stored::{Stored, front_of};
use ink_base::Text;
use std::alloc::Global;
use std::marker::Model;

/// Files in memory. Only a read of a name that isn't there fails.
#[derive(Drop)]
pub struct SureFiles {
    files: Stored,
    reads: Faults,
}

impl Model for SureFiles {
    ghost use Rattle.ink_devices.specs.Sure.{SureFilesView};

    ghost Value = { SureFilesView };

    ghost view = { λ f. record { files = f.files; reads = f.reads } };
}

impl SureFiles {
    /// Files that hold these at first. It takes no memory.
    pub fn new(held: Vec<(Text, Vec<u8>)>) -> SureFiles
        requires { AreApart held.items }
        ensures { result ≡ record { files = held.items; reads = no_faults } }
    {
        SureFiles {
            files: Stored::new(held),
            reads: Faults::none(),
        }
    }

    /// The bytes under a name. `None` exactly where it isn't there.
    pub fn get(&self, name: &Text) -> Option<&[u8]>
        ensures { option_copied result ≡ bytes_under self.now.files name.now }
    {
        self.files.get(name)
    }
}

impl Files for SureFiles {
    ghost held = { λ f. Some (bytes_under f.files) };

    ghost read_faults = { λ f. f.reads };

    ghost write_faults = { λ _. no_faults };

    fn read(&mut self, alloc: Global, name: &Text, most: u64) -> Result<Vec<u8>, FileFault>
        ensures bytes { IfOk result (λ found. Reads (Some (bytes_under self.old.files)) name.now most found.items) }
        ensures fault { TellsFault result name.now self.old.reads self.new.reads }
        ensures held { self.new.files ≡ self.old.files }

        // Only a name that isn't there is a fault.
        ensures missing { IfErr result (λ fault. fault ≡ HasFailed → bytes_under self.old.files name.now ≡ None) }
    {
        let told = name.copy(alloc)?;
        match self.files.get(name) {
            Some(bytes) => Ok(front_of(alloc, bytes, most)?),
            None => {
                self.reads.tell(told);
                Err(FileFault::Failed)
            }
        }
    }

    fn write(&mut self, name: &Text, bytes: &[u8]) -> Result<(), FileFault>
        ensures held { Writes result name.now bytes.now (Some (bytes_under self.old.files)) (Some (bytes_under self.new.files)) }
        ensures reads { self.new.reads ≡ self.old.reads }
        ensures ok { IsOkUnless result OutOfMemory }
    {
        let alloc = self.files.allocator();
        let kept = name.copy(alloc)?;
        self.files.put(kept, Vec::from_slice(alloc, bytes)?)?;
        Ok(())
    }
}

/// A sink that takes all bytes, and keeps none.
#[derive(Clone, Copy)]
pub struct SureSink;

impl SureSink {
    /// Such a sink.
    pub fn new() -> SureSink {
        SureSink
    }
}

impl Sink for SureSink {
    ghost contents = { λ _. None };

    ghost faults = { λ _. 0 };

    fn write(&mut self, piece: &[u8]) -> Result<usize, Failed>
        ensures { result ≡ Ok (length piece.now) }
    {
        Ok(piece.len())
    }
}
