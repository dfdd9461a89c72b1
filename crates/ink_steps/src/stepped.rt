//! What a step came to.
ghost use Rattle.std.specs.Prelude.{◌≡◌};

use ink_base::Text;
use ink_code::Wrong;
use ink_parcel::Parcel;
use std::alloc::AllocError;

/// What a step came to.
#[derive(Drop)]
pub enum Stepped {
    /// It was made, and the next one can follow.
    Went,
    /// The process wants this action.
    Wants(Request),
    /// The process ends the run with a text.
    Panics(Text),
    /// So many steps were made since the last action, and no more are allowed.
    Spent(u64),
}

/// An action that a process wants, with the values that go out.
#[derive(Drop)]
pub enum Request {
    Take,
    Print(Text),
    Spawn {
        kind: u32,
        fields: Parcel,
    },
    Send {
        to: u32,
        method: u32,
        values: Parcel,
    },
    NewFuture,
    SetFuture {
        future: u32,
        value: Parcel,
    },
    BreakFuture {
        future: u32,
    },
    GetFuture {
        future: u32,
    },
}

/// Why no step was made.
#[derive(Clone, Copy)]
pub enum StepFault {
    /// The instruction is wrong in this way. The process isn't used further.
    Wrong(Wrong),
    /// The process is as before.
    OutOfMemory,
}

impl From<AllocError> for StepFault {
    ghost use Rattle.ink_steps.specs.declared.stepped.StepFault.{StepFault};

    ghost from_gives = { λ _ fault. fault ≡ StepFault.OutOfMemory };

    fn from(_: AllocError) -> StepFault {
        StepFault::OutOfMemory
    }
}

impl From<Wrong> for StepFault {
    ghost use Rattle.ink_steps.specs.declared.stepped.StepFault.{StepFault};

    ghost from_gives = { λ why fault. fault ≡ StepFault.Wrong why };

    fn from(why: Wrong) -> StepFault {
        StepFault::Wrong(why)
    }
}
