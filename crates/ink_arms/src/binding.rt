//! What the chosen arm of a match does with the scrutinee.
ghost use Rattle.std.specs.Prelude.{◌<◌};
ghost use Rattle.ink_forms.specs.Views as view;

use crate::context::Context;
use crate::parts::{Part, parts_of};
use crate::site::{Site, add_jump, end, keep, read_part, take_free};
use crate::tests::only_where_fits;
use ink_base::Items;
use ink_code::Instr;
use ink_emit::{Body, LowerFault};
use ink_forms::{Children, Pattern, PatternId};
use std::alloc::AllocError;

/// What is bound: the value in a register, and whether it is a borrow that was made on the way to it.
#[derive(Clone, Copy)]
struct Bound {
    from: u32,
    is_lent: bool,
}

/// A value goes to the variable of a name.
fn bind_name(site: Site, body: &mut Body, number: PatternId, from: u32) -> Result<(), LowerFault> {
    let to = site.register_of(number);
    body.emit(site.line, Instr::Move { to, from })
}

/// Adds a register to a list.
fn add_register(registers: &mut Vec<u32>, register: u32) -> Result<(), AllocError> {
    registers.push(register)?;
    Ok(())
}

/// An object is given up, and its fields go to the free registers, which are held: the first of these comes back.
fn take_apart(site: Site, body: &mut Body, parts: &[Part], object: u32) -> Result<u32, LowerFault> {
    let first = body.free();
    let mut to = Vec::new(site.context.alloc);
    for _ in parts {
        let register = take_free(body)?;
        add_register(&mut to, register)?;
    }
    let to = Items::of(to);
    body.emit(site.line, Instr::TakeApart { to, object })?;
    Ok(first)
}

/// A field that no pattern names is dropped.
fn drop_field(
    site: Site,
    body: &mut Body,
    parent: PatternId,
    place: u32,
    from: u32,
) -> Result<(), LowerFault> {
    if site.is_value_field(site.case_of(parent), place) {
        return Ok(());
    }
    body.emit(site.line, Instr::Drop { from })
}

/// A value is bound by a pattern that fits it. It is gone behind this.
#[cycle(bind)]
fn bind_pattern(
    site: Site,
    body: &mut Body,
    number: PatternId,
    bound: Bound,
) -> Result<(), LowerFault> {
    match site.arena.pattern(number).pattern {
        Pattern::Wildcard | Pattern::Lit { .. } => end(site, body, number, bound.from),
        Pattern::Name { .. } => bind_name(site, body, number, bound.from),
        Pattern::Either { alternatives } => {
            bind_alternatives(site, body, number, alternatives, bound)
        }
        Pattern::Constructor { .. } | Pattern::Fields { .. } => {
            if bound.is_lent || site.is_borrow(number) {
                bind_below(site, body, number, bound.from)
            } else {
                bind_owned(site, body, number, bound.from)
            }
        }
    }
}

/// An owned object is taken apart, and its fields are bound or dropped one after the other.
#[cycle(bind)]
fn bind_owned(site: Site, body: &mut Body, number: PatternId, from: u32) -> Result<(), LowerFault> {
    let mark = body.mark();
    let parts = parts_of(site, number)?;
    let first = take_apart(site, body, &parts, from)?;
    for part in &parts {
        let from = first.saturating_add(part.place);
        let bound = Bound {
            from,
            is_lent: false,
        };
        match part.pattern {
            Some(pattern) => bind_pattern(site, body, pattern, bound)?,
            None => drop_field(site, body, number, part.place, from)?,
        }
    }
    body.release(mark);
    Ok(())
}

/// The parts of an object are bound below a borrow of it, which ends then.
#[cycle(bind)]
fn bind_below(site: Site, body: &mut Body, number: PatternId, from: u32) -> Result<(), LowerFault> {
    let parts = parts_of(site, number)?;
    for part in &parts {
        if let Some(pattern) = part.pattern {
            bind_part(site, body, pattern, part.place, from)?;
        }
    }
    body.emit(site.line, Instr::Drop { from })
}

/// The part at a place of an object is bound below a borrow of the object.
#[cycle(bind)]
fn bind_part(
    site: Site,
    body: &mut Body,
    number: PatternId,
    place: u32,
    object: u32,
) -> Result<(), LowerFault> {
    match site.arena.pattern(number).pattern {
        Pattern::Wildcard | Pattern::Lit { .. } => Ok(()),
        Pattern::Name { .. } => read_part(site, body, site.register_of(number), object, place),
        _ => {
            let mark = body.mark();
            let from = take_free(body)?;
            read_part(site, body, from, object, place)?;
            let bound = Bound {
                from,
                is_lent: true,
            };
            bind_pattern(site, body, number, bound)?;
            body.release(mark);
            Ok(())
        }
    }
}

/// A value is bound by the first alternative that fits it, which is tested once more: tests change nothing. Where none
/// before it does, the last one fits.
#[cycle(bind)]
fn bind_alternatives(
    site: Site,
    body: &mut Body,
    parent: PatternId,
    alternatives: Children,
    bound: Bound,
) -> Result<(), LowerFault>
    requires { view.AreBefore site.arena.now parent alternatives }
{
    let mut ends = Vec::new(site.context.alloc);
    let alternatives = site.arena.list(alternatives);
    for (index, alternative) in alternatives.iter().enumerate() {
        if index + 1 < alternatives.len() {
            let next = only_where_fits(site, body, *alternative, bound.from)?;
            bind_pattern(site, body, *alternative, bound)?;
            let end = body.jump(site.line)?;
            add_jump(&mut ends, end)?;
            body.land(next);
        } else {
            bind_pattern(site, body, *alternative, bound)?;
        }
    }
    body.land_all(&ends);
    Ok(())
}

/// Binds the value in a register by the pattern of the arm that was chosen for it.
///
/// An owned value is taken apart in preorder: a part goes to its variable, or is dropped at its turn. Below a borrow the
/// variables get borrows or values, and then the borrow ends, unless a name takes it. The register is empty behind this,
/// or holds a value. It may be held, and nothing more is held afterwards.
///
/// `OutOfMemory` is want of memory, of registers or of instructions.
pub fn bind(
    context: &Context,
    body: &mut Body,
    pattern: PatternId,
    register: u32,
    line: u32,
) -> Result<(), LowerFault> {
    let site = Site::new(context, line);
    let mark = body.mark();
    keep(body, register)?;
    let bound = Bound {
        from: register,
        is_lent: false,
    };
    bind_pattern(site, body, pattern, bound)?;
    body.release(mark);
    Ok(())
}
