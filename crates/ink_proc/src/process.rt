//! One process.
ghost use Rattle.std.specs.Prelude.{◌≡◌, IfErr, IfOk};
ghost use Rattle.ink_code.specs.Process.{started};
ghost use Rattle.ink_proc.specs.Starts.{CanStart};
ghost use Rattle.ink_proc.specs.State.{state_of};

use crate::fault::StartFault;
use crate::frames::Frames;
use crate::pending::Pending;
use ink_base::{ObjectId, Value};
use ink_heap::Heap;
use std::alloc::Global;

/// A process.
#[derive(Drop)]
pub struct Proc {
    pub number: u32,
    pub kind: u32,
    /// How many objects it made, its state among them.
    pub made: u64,
    pub frames: Frames,
    pub heap: Heap,
    /// The values that wait to be dropped.
    pub pending: Pending,
    /// How many steps it made since its last action.
    pub ran: u64,
    /// What a step may use as room for values, so that it wants no memory each time. What it holds says nothing.
    pub room: Vec<Value>,
}

impl Proc {
    /// A process that waits for its first message, with room for a frame. Without memory the objects come back.
    pub fn start(
        alloc: Global,
        number: u32,
        kind: u32,
        heap: Heap,
        state: ObjectId,
    ) -> Result<Proc, StartFault>
        requires { CanStart number state heap.objects }
        ensures process { IfOk result (λ process. state_of process ≡ started number kind heap.objects) }
        ensures back { IfErr result (λ fault. fault ≡ StartFault.OutOfMemory heap) }
    {
        let Ok(frames) = Frames::with_capacity(alloc, 1) else {
            return Err(StartFault::OutOfMemory(heap));
        };
        Ok(Proc {
            number,
            kind,
            made: state.serial,
            frames,
            heap,
            pending: Pending::new(alloc),
            ran: 0,
            room: Vec::new(alloc),
        })
    }
}
