//! Registers that hold values for later.
ghost use Rattle.std.specs.Prelude.{◌≡◌, map, reverse, IfOk};
ghost use Rattle.ink_emit.specs.Bodies as spec;

use std::alloc::{AllocError, Global};

/// Why a value is held.
#[derive(Clone, Copy)]
pub enum Holding {
    /// An instruction takes it away.
    Operand,
    /// It lives to the end of its statement, and is dropped there.
    Temporary,
}

/// A register that holds a value.
#[derive(Clone, Copy)]
pub struct Held {
    pub register: u32,
    pub holding: Holding,
}

impl Held {
    /// Whether an instruction takes the value away.
    pub fn is_operand(self) -> bool
        ensures { result ≡ spec.is_operand self }
    {
        match self.holding {
            Holding::Operand => true,
            Holding::Temporary => false,
        }
    }
}

/// The registers of the operands among some, in order.
pub(crate) fn operands_of(alloc: Global, held: &[Held]) -> Result<Vec<u32>, AllocError>
    ensures { IfOk result (λ operands. operands.items ≡ spec.operands held.now) }
{
    let mut operands = Vec::new(alloc);
    for one in held {
        if one.is_operand() {
            operands.push(one.register)?;
        }
    }
    Ok(operands)
}

/// The registers of some, from the last to the first.
pub(crate) fn newest_first(alloc: Global, held: &[Held]) -> Result<Vec<u32>, AllocError>
    ensures { IfOk result (λ registers. registers.items ≡ reverse (map spec.register_of held.now)) }
{
    let mut registers = Vec::new(alloc);
    for one in held {
        registers.push(one.register)?;
    }
    registers.reverse();
    Ok(registers)
}

/// Those of some that aren't operands, in order.
pub(crate) fn temporaries_of(alloc: Global, held: &[Held]) -> Result<Vec<Held>, AllocError>
    ensures { IfOk result (λ temporaries. temporaries.items ≡ spec.temporaries held.now) }
{
    let mut temporaries = Vec::new(alloc);
    for one in held {
        if !one.is_operand() {
            temporaries.push(*one)?;
        }
    }
    Ok(temporaries)
}
