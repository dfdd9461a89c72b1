//! The code of one method as it grows.
ghost use Rattle.std.specs.Prelude.{◌≡◌, ◌≤◌, ◌∷◌, ◌++◌, [], length, drop, take, IfOk, OnOk, OnErr};
ghost use Rattle.ink_emit.specs.Bodies as spec;

use crate::constants::Constants;
use crate::fault::{LowerFault, Unsound};
use crate::given::Given;
use crate::held::{Held, Holding, newest_first, operands_of, temporaries_of};
use crate::jumps::{Hole, lead_at};
use crate::needed::registers_needed;
use ink_base::{Items, Text};
use ink_code::{Instr, Method};
use std::alloc::Global;

/// The greatest number of instructions of a method, and of its registers.
const MOST: u32 = 0x8000_0000;

/// The code of one method so far, and the registers that hold values, the newest last, each above the one before.
///
/// The next free register is the one above the newest held one, or above the variables where none is held.
#[derive(Drop)]
pub struct Body {
    alloc: Global,
    variables: u32,
    registers: u32,
    instructions: Vec<Instr>,
    lines: Vec<u32>,
    held: Vec<Held>,
    ghost paired: { length lines.items ≡ length instructions.items },
    ghost few: { length instructions.items ≤ spec.most },
}

/// The items behind the first so many.
fn behind(held: &[Held], count: usize) -> &[Held]
    ensures { result.now ≡ drop count held.now }
{
    if count <= held.len() {
        &held[count..]
    } else {
        &[]
    }
}

impl Body {
    /// No instructions, of a method with so many registers for variables.
    pub fn new(alloc: Global, variables: u32) -> Body
        ensures code { result.instructions.items ≡ [] }
        ensures held { result.held.items ≡ [] }
        ensures variables { result.variables ≡ variables }
    {
        Body {
            alloc,
            variables,
            registers: variables,
            instructions: Vec::new(alloc),
            lines: Vec::new(alloc),
            held: Vec::new(alloc),
        }
    }

    /// How many instructions there are: the place of the next.
    pub fn place(&self) -> u32
        ensures { result ≡ length self.now.instructions.items }
    {
        self.instructions.len() as u32
    }

    /// The first register above all held ones.
    pub fn free(&self) -> u32 {
        match self.held.last() {
            Some(newest) => newest.register.saturating_add(1),
            None => self.variables,
        }
    }

    /// Puts an instruction behind the others, for a line of the source. The greatest number of instructions or registers
    /// is want of memory too.
    pub fn emit(&mut self, line: u32, instr: Instr) -> Result<(), LowerFault>
        ensures code { OnOk result (self.new.instructions.items ≡ self.old.instructions.items ++ instr ∷ []) }
        ensures line { OnOk result (self.new.lines.items ≡ self.old.lines.items ++ line ∷ []) }
        ensures held { self.new.held.items ≡ self.old.held.items }
        ensures variables { self.new.variables ≡ self.old.variables }
        ensures refused { OnErr result (self.new.instructions.items ≡ self.old.instructions.items) }
    {
        let needed = registers_needed(&instr);
        if self.place() >= MOST || needed > MOST {
            return Err(LowerFault::OutOfMemory);
        }
        self.instructions.reserve(1)?;
        self.lines.reserve(1)?;
        self.instructions.push_reserved(instr);
        self.lines.push_reserved(line);
        self.registers = self.registers.max(needed);
        Ok(())
    }

    /// Holds the value in a register, which is free or above it. Another register is `Unsound`.
    pub fn hold(&mut self, register: u32, holding: Holding) -> Result<(), LowerFault>
        ensures code { self.new.instructions.items ≡ self.old.instructions.items }
        ensures held { OnOk result (self.new.held.items ≡ self.old.held.items ++ record { register = register; holding = holding } ∷ []) }
        ensures refused { OnErr result (self.new.held.items ≡ self.old.held.items) }
    {
        if register < self.free() {
            return Err(LowerFault::Unsound(Unsound::Register(register)));
        }
        if register >= MOST {
            return Err(LowerFault::OutOfMemory);
        }
        self.held.reserve(1)?;
        self.held.push_reserved(Held { register, holding });
        Ok(())
    }

    /// How many registers are held.
    pub fn mark(&self) -> usize
        ensures { result ≡ length self.now.held.items }
    {
        self.held.len()
    }

    /// The registers that are held above a mark, the newest last.
    pub fn held_above(&self, mark: usize) -> &[Held]
        ensures { result.now ≡ drop mark self.now.held.items }
    {
        behind(&self.held, mark)
    }

    /// The operands above a mark, in order, which are held no longer. Temporaries stay.
    pub fn take_operands(&mut self, mark: usize) -> Result<Items<u32>, LowerFault>
        ensures operands { IfOk result (λ operands. operands ≡ spec.operands (drop mark self.old.held.items)) }
        ensures held { OnOk result (self.new.held.items ≡ take mark self.old.held.items ++ spec.temporaries (drop mark self.old.held.items)) }
        ensures code { self.new.instructions.items ≡ self.old.instructions.items }
    {
        let operands = operands_of(self.alloc, behind(&self.held, mark))?;
        let temporaries = temporaries_of(self.alloc, behind(&self.held, mark))?;
        self.held.truncate(mark);
        self.held.extend_from_slice(&temporaries)?;
        Ok(Items::of(operands))
    }

    /// Holds none of the registers above a mark any longer. No instruction comes of it.
    pub fn release(&mut self, mark: usize)
        ensures held { self.new.held.items ≡ take mark self.old.held.items }
        ensures code { self.new.instructions.items ≡ self.old.instructions.items }
    {
        self.held.truncate(mark);
    }

    /// Drops all that is held above a mark, the newest first. All of it stays held, for paths that don't come by here.
    pub fn drop_held(&mut self, mark: usize, line: u32) -> Result<(), LowerFault>
        ensures code { OnOk result (self.new.instructions.items ≡ self.old.instructions.items ++ spec.drops (drop mark self.old.held.items)) }
        ensures held { self.new.held.items ≡ self.old.held.items }
        ensures variables { self.new.variables ≡ self.old.variables }
    {
        let newest_first = newest_first(self.alloc, behind(&self.held, mark))?;
        for from in &newest_first {
            self.emit(line, Instr::Drop { from: *from })?;
        }
        Ok(())
    }

    /// Ends the temporaries above a mark, at which no operand stands there any more: each is dropped, the newest first,
    /// and held no longer.
    pub fn end_temporaries(&mut self, mark: usize, line: u32) -> Result<(), LowerFault>
        ensures held { OnOk result (self.new.held.items ≡ take mark self.old.held.items) }
    {
        self.drop_held(mark, line)?;
        self.release(mark);
        Ok(())
    }

    /// A jump whose place is known later.
    pub fn jump(&mut self, line: u32) -> Result<Hole, LowerFault>
        ensures hole { IfOk result (λ hole. hole.place ≡ length self.old.instructions.items) }
        ensures held { self.new.held.items ≡ self.old.held.items }
    {
        let place = self.place();
        self.emit(line, Instr::Jump { place })?;
        Ok(Hole { place })
    }

    /// A jump where a register holds true, whose place is known later.
    pub fn jump_if(&mut self, line: u32, on: u32) -> Result<Hole, LowerFault>
        ensures hole { IfOk result (λ hole. hole.place ≡ length self.old.instructions.items) }
        ensures held { self.new.held.items ≡ self.old.held.items }
    {
        let place = self.place();
        self.emit(line, Instr::JumpIf { on, place })?;
        Ok(Hole { place })
    }

    /// Lets a jump lead to the next instruction.
    pub fn land(&mut self, hole: Hole)
        ensures code { self.new.instructions.items ≡ spec.led_at self.old.instructions.items hole.place (length self.old.instructions.items) }
        ensures held { self.new.held.items ≡ self.old.held.items }
    {
        let to = self.place();
        lead_at(&mut self.instructions, hole.place, to);
    }

    /// Lets some jumps lead to the next instruction.
    pub fn land_all(&mut self, holes: &[Hole])
        ensures held { self.new.held.items ≡ self.old.held.items }
    {
        let to = self.place();
        for hole in holes {
            lead_at(&mut self.instructions, hole.place, to);
        }
    }

    /// The register of what an expression gives: nil is put into the free one. `None` where it ends.
    pub fn settle(
        &mut self,
        given: Given,
        line: u32,
        constants: Constants,
    ) -> Result<Option<u32>, LowerFault>
        ensures held { self.new.held.items ≡ self.old.held.items }
    {
        match given {
            Given::Ends => Ok(None),
            Given::At(register) => Ok(Some(register)),
            Given::Nil => {
                let to = self.free();
                let constant = constants.nil();
                self.emit(line, Instr::Const { to, constant })?;
                Ok(Some(to))
            }
        }
    }

    /// The method of this code.
    pub fn finish(self, name: Text) -> Method
        ensures code { result.body ≡ self.instructions.items }
        ensures lines { result.lines ≡ self.lines.items }
        ensures name { result.name ≡ name }
    {
        let Body {
            registers,
            instructions,
            lines,
            ..
        } = self;
        Method {
            name,
            registers,
            body: Items::of(instructions),
            lines: Items::of(lines),
        }
    }
}
