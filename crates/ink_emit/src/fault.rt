//! Why no code is made.

use std::alloc::AllocError;

/// What a module lacks, or a code. No module that the phases of the verdict accept has one of these.
#[derive(Debug, Clone, Copy)]
pub enum Unsound {
    /// This node has no type, or calls nothing where something is called.
    Node(u32),
    /// A value is held in a register that isn't above all held ones.
    Register(u32),
    /// The code names what it hasn't.
    Ranges,
    /// A method tests whether a variable is there, though each variable is there on all paths or on none.
    Tests,
}

/// Why no code is made.
#[derive(Debug, Clone, Copy)]
pub enum LowerFault {
    /// Want of memory, or of numbers.
    OutOfMemory,
    Unsound(Unsound),
}

impl From<AllocError> for LowerFault {
    ghost use Rattle.std.specs.Prelude.{◌≡◌};
    ghost use Rattle.ink_emit.specs.declared.fault.LowerFault.{LowerFault};

    ghost from_gives = { λ _ fault. fault ≡ LowerFault.OutOfMemory };

    fn from(_: AllocError) -> LowerFault {
        LowerFault::OutOfMemory
    }
}
