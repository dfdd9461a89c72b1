//! Where code of an arm is made, and the few steps that its walks share.

use crate::context::Context;
use ink_base::Items;
use ink_code::Instr;
use ink_emit::{Body, Holding, Hole, LowerFault};
use ink_forms::{Arena, PatternId};
use std::alloc::AllocError;

/// What stays the same in an arm: what is read of the module, and the line of its pattern.
#[derive(Clone, Copy)]
pub(crate) struct Site<'a> {
    pub context: &'a Context<'a>,
    pub arena: &'a Arena,
    pub line: u32,
}

impl<'a> Site<'a> {
    /// The site of an arm whose pattern stands in this line.
    pub fn new(context: &'a Context<'a>, line: u32) -> Site<'a> {
        Site {
            context,
            arena: &context.checked.core().arena,
            line,
        }
    }

    /// Whether a pattern is matched with a value of a value type, which needs no drop.
    pub fn is_value(&self, pattern: PatternId) -> bool {
        match self.context.checked.typed().type_of(pattern) {
            Some(of) => self.context.checked.types().is_value(of),
            None => false,
        }
    }

    /// Whether a pattern is matched with a borrow.
    pub fn is_borrow(&self, pattern: PatternId) -> bool {
        match self.context.checked.typed().type_of(pattern) {
            Some(of) => self.context.checked.types().is_borrow(of),
            None => false,
        }
    }
}

/// Holds a register, where it isn't below the free one already.
pub(crate) fn keep(body: &mut Body, register: u32) -> Result<(), LowerFault> {
    if register >= body.free() {
        body.hold(register, Holding::Operand)?;
    }
    Ok(())
}

/// Holds the free register, and gives it.
pub(crate) fn take_free(body: &mut Body) -> Result<u32, LowerFault> {
    let register = body.free();
    body.hold(register, Holding::Operand)?;
    Ok(register)
}

/// A truth value in a register.
pub(crate) fn put_truth(
    site: Site,
    body: &mut Body,
    to: u32,
    truth: bool,
) -> Result<(), LowerFault> {
    let constant = site.context.constants.truth(truth);
    body.emit(site.line, Instr::Const { to, constant })
}

/// A borrow of the part at a place of an object, or the part itself where it is a value.
pub(crate) fn read_part(
    site: Site,
    body: &mut Body,
    to: u32,
    object: u32,
    field: u32,
) -> Result<(), LowerFault> {
    body.emit(site.line, Instr::LoadBorrow { to, object, field })
}

/// Ends what a pattern was matched with. A value needs no end.
pub(crate) fn end(
    site: Site,
    body: &mut Body,
    pattern: PatternId,
    from: u32,
) -> Result<(), LowerFault> {
    if site.is_value(pattern) {
        return Ok(());
    }
    body.emit(site.line, Instr::Drop { from })
}

/// Goes on behind this only where a register holds true. Elsewhere the jump is taken whose place isn't known yet.
pub(crate) fn only_where(site: Site, body: &mut Body, on: u32) -> Result<Hole, LowerFault> {
    let further = body.jump_if(site.line, on)?;
    let otherwise = body.jump(site.line)?;
    body.land(further);
    Ok(otherwise)
}

/// Adds a jump to those that lead to one place.
pub(crate) fn add_jump(jumps: &mut Vec<Hole>, jump: Hole) -> Result<(), AllocError> {
    jumps.push(jump)?;
    Ok(())
}

/// What a row of the built-in methods gives of the values in registers, which are empty then.
pub(crate) fn compute(
    site: Site,
    body: &mut Body,
    row: u32,
    to: u32,
    operands: &[u32],
) -> Result<(), LowerFault> {
    let operands = Items::of(Vec::from_slice(site.context.alloc, operands)?);
    body.emit(site.line, Instr::Prim { row, to, operands })
}

/// Whether two values are equal, by a row of the built-in methods: that in a register, which gets the answer, and a
/// constant.
pub(crate) fn compare(
    site: Site,
    body: &mut Body,
    row: u32,
    to: u32,
    constant: u32,
) -> Result<(), LowerFault> {
    let other = body.free();
    body.emit(
        site.line,
        Instr::Const {
            to: other,
            constant,
        },
    )?;
    compute(site, body, row, to, &[to, other])
}
