//! Files and a sink in memory that fail by a plan, for tests.
ghost use Rattle.std.specs.Prelude.{◌≡◌, ℕ, ◌-◌, ◌≤◌, ◌<◌, ◌⊎◌, ◌↔◌, List, [], ◌++◌, length, take, Option, None, Some, IsTrue, IfOk, OnOk, OnErr, Contains};
ghost use Rattle.std.specs.Option.{option_copied};
ghost use Rattle.ink_devices.specs.Outside.{no_faults, TellsFault, Reads, Writes, CountsFault, appended};
ghost use Rattle.ink_devices.specs.Stored.{bytes_under, AreApart};
ghost use Rattle.ink_devices.specs.Memory.{MeetsPlan, IsAmiss, WritesByPlan, taken_count};

use crate::faults::{Faults, one_more};
use crate::outside::{Failed, FileFault, Files, Sink};
use crate::stored::{Stored, front_of};
use ink_base::Text;
use std::alloc::{AllocError, Global};
use std::marker::Model;

/// Files in memory whose calls fail by a plan.
///
/// Calls are counted from 1, reads and writes together, up to the greatest `u64`. A call for which there is no memory
/// does nothing and isn't counted.
#[derive(Drop)]
pub struct MemFiles {
    files: Stored,
    fail: Vec<u64>,
    calls: u64,
    reads: Faults,
    writes: Faults,
}

impl Model for MemFiles {
    ghost use Rattle.ink_devices.specs.Memory.{MemFilesView};

    ghost Value = { MemFilesView };

    ghost view = { λ f. record {
      files = f.files;
      planned = f.fail.items;
      calls = f.calls;
      reads = f.reads;
      writes = f.writes;
    } };
}

impl MemFiles {
    /// Files that hold these at first, and whose calls with these numbers are to fail. It takes no memory.
    pub fn new(held: Vec<(Text, Vec<u8>)>, fail: Vec<u64>) -> MemFiles
        requires { AreApart held.items }
        ensures { result ≡ record {
          files = held.items;
          planned = fail.items;
          calls = 0;
          reads = no_faults;
          writes = no_faults;
        } }
    {
        MemFiles {
            files: Stored::new(held),
            fail,
            calls: 0,
            reads: Faults::none(),
            writes: Faults::none(),
        }
    }

    /// The bytes under a name. `None` exactly where it isn't there.
    pub fn get(&self, name: &Text) -> Option<&[u8]>
        ensures { option_copied result ≡ bytes_under self.now.files name.now }
    {
        self.files.get(name)
    }
}

impl Files for MemFiles {
    ghost held = { λ f. Some (bytes_under f.files) };

    ghost read_faults = { λ f. f.reads };

    ghost write_faults = { λ f. f.writes };

    fn read(&mut self, alloc: Global, name: &Text, most: u64) -> Result<Vec<u8>, FileFault>
        ensures bytes { IfOk result (λ found. Reads (Some (bytes_under self.old.files)) name.now most found.items) }
        ensures fault { TellsFault result name.now self.old.reads self.new.reads }
        ensures held { self.new.files ≡ self.old.files }
        ensures writes { self.new.writes ≡ self.old.writes }

        // A read fails where the plan says so, and where the name isn't there.
        ensures plan { MeetsPlan result self.old self.new (bytes_under self.old.files name.now ≡ None) }
    {
        let told = name.copy(alloc)?;
        let call = one_more(self.calls);
        if !is_listed(self.fail.as_slice(), call) {
            if let Some(bytes) = self.files.get(name) {
                let found = front_of(alloc, bytes, most)?;
                self.calls = call;
                return Ok(found);
            }
        }
        self.calls = call;
        self.reads.tell(told);
        Err(FileFault::Failed)
    }

    fn write(&mut self, name: &Text, bytes: &[u8]) -> Result<(), FileFault>
        ensures held { Writes result name.now bytes.now (Some (bytes_under self.old.files)) (Some (bytes_under self.new.files)) }
        ensures fault { TellsFault result name.now self.old.writes self.new.writes }
        ensures reads { self.new.reads ≡ self.old.reads }

        // A write fails where the plan says so, and leaves the files as they were.
        ensures plan { MeetsPlan result self.old self.new ⊥ }
        ensures err { OnErr result (self.new.files ≡ self.old.files) }
    {
        let alloc = self.files.allocator();
        let told = name.copy(alloc)?;
        let call = one_more(self.calls);
        if is_listed(self.fail.as_slice(), call) {
            self.calls = call;
            self.writes.tell(told);
            return Err(FileFault::Failed);
        }
        self.files.put(told, Vec::from_slice(alloc, bytes)?)?;
        self.calls = call;
        Ok(())
    }
}

/// A sink in memory whose calls fail by a plan. Once it is made, it takes no more memory.
///
/// Calls are counted from 1, up to the greatest `u64`.
#[derive(Drop)]
pub struct MemSink {
    bytes: Vec<u8>,
    room: u64,
    fail: Vec<u64>,
    most: Vec<u64>,
    calls: u64,
    faults: u64,
}

impl Model for MemSink {
    ghost use Rattle.std.specs.Prelude.{◌≤◌, vec_len, vec_capacity};
    ghost use Rattle.ink_devices.specs.Memory.{MemSinkView};

    ghost Value = { MemSinkView };

    ghost view = { λ s. record {
      bytes = s.bytes.items;
      room = s.room;
      planned = s.fail.items;
      most = s.most.items;
      calls = s.calls;
      faults = s.faults;
    } };

    ghost invariant = { λ s. (vec_len s.bytes ≤ s.room) × (s.room ≤ vec_capacity s.bytes) };
}

impl MemSink {
    /// An empty sink with room for so many bytes. Its calls with the numbers in `fail` are to fail, and each call takes
    /// at most what `most` says in the order of calls, or the whole piece from the end of `most` on.
    pub fn new(
        alloc: Global,
        room: u64,
        fail: Vec<u64>,
        most: Vec<u64>,
    ) -> Result<MemSink, AllocError>
        ensures { IfOk result (λ sink. sink ≡ record {
          bytes = [];
          room = room;
          planned = fail.items;
          most = most.items;
          calls = 0;
          faults = 0;
        }) }
    {
        Ok(MemSink {
            bytes: Vec::with_capacity(alloc, room as usize)?,
            room,
            fail,
            most,
            calls: 0,
            faults: 0,
        })
    }

    /// The bytes so far.
    pub fn bytes(&self) -> &[u8]
        ensures { result.now ≡ self.now.bytes }
    {
        self.bytes.as_slice()
    }
}

impl Sink for MemSink {
    ghost contents = { λ s. Some s.bytes };

    ghost faults = { λ s. s.faults };

    fn write(&mut self, piece: &[u8]) -> Result<usize, Failed>
        ensures taken { IfOk result (λ n. (n ≤ length piece.now) × (length piece.now ≡ 0 ⊎ 1 ≤ n)) }
        ensures contents { IfOk result (λ n. self.new.bytes ≡ self.old.bytes ++ take n piece.now) }
        ensures ok { OnOk result (self.new.faults ≡ self.old.faults) }
        ensures fault { OnErr result (CountsFault self.old.faults self.new.faults) }
        ensures cut { OnErr result (self.new.bytes ≡ self.old.bytes) }
        ensures plan { WritesByPlan result self.old self.new piece.now }
    {
        self.calls = one_more(self.calls);
        let taken = taken_of(self.most.as_slice(), self.calls, piece.len());
        let left = self.room as usize - self.bytes.len();
        if is_amiss(self.fail.as_slice(), self.calls, taken, piece.len(), left) {
            self.faults = one_more(self.faults);
            return Err(Failed);
        }
        match self.bytes.extend_from_slice(&piece[..taken]) {
            Ok(()) => Ok(taken),
            Err(_) => unreachable!(),
        }
    }
}

/// Whether the plan has the number of a call.
fn is_listed(plan: &[u64], call: u64) -> bool
    ensures { IsTrue result ↔ Contains plan.now call }
{
    plan.contains(&call)
}

/// Whether a call that is to take so many of a piece's bytes fails.
fn is_amiss(plan: &[u64], call: u64, taken: usize, count: usize, left: usize) -> bool
    ensures { IsTrue result ↔ IsAmiss plan.now call taken count left }
{
    is_listed(plan, call) || (taken == 0 && 0 < count) || left < taken
}

/// How many of so many bytes a call takes.
fn taken_of(most: &[u64], call: u64, count: usize) -> usize
    requires { 1 ≤ call }
    ensures { result ≡ taken_count most.now call count }
{
    match most.get((call - 1) as usize) {
        Some(limit) => count.min(*limit as usize),
        None => count,
    }
}
