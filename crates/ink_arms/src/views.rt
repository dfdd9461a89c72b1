//! Reads of what a pattern binds, in the guard before it is bound.
ghost use Rattle.std.specs.Prelude.{◌<◌};
ghost use Rattle.ink_forms.specs.Views as view;

use crate::context::Context;
use crate::names::is_bound_in;
use crate::parts::parts_of;
use crate::site::{Site, add_jump, end, keep, read_part, take_free};
use crate::tests::only_where_fits;
use ink_code::Instr;
use ink_emit::{Body, LowerFault};
use ink_forms::{Children, Pattern, PatternId};

/// What is read: the part that a pattern binds to a variable, of the value in a register, into another one, which is held.
#[derive(Clone, Copy)]
struct Wanted {
    variable: u32,
    from: u32,
    to: u32,
}

/// Reads what a pattern binds to a variable.
#[cycle(view)]
fn view_pattern(
    site: Site,
    body: &mut Body,
    number: PatternId,
    wanted: Wanted,
) -> Result<(), LowerFault> {
    let Wanted { from, to, .. } = wanted;
    match site.arena.pattern(number).pattern {
        Pattern::Wildcard | Pattern::Lit { .. } => Ok(()),
        Pattern::Name { .. } => body.emit(site.line, Instr::Borrow { to, from }),
        Pattern::Either { alternatives } => {
            view_alternatives(site, body, number, alternatives, wanted)
        }
        Pattern::Constructor { .. } | Pattern::Fields { .. } => {
            view_object(site, body, number, wanted)
        }
    }
}

/// Reads what a pattern of an object binds to a variable: the part that does is one.
#[cycle(view)]
fn view_object(
    site: Site,
    body: &mut Body,
    number: PatternId,
    wanted: Wanted,
) -> Result<(), LowerFault> {
    let parts = parts_of(site, number)?;
    for part in &parts {
        if let Some(pattern) = part.pattern {
            if is_bound_in(site, pattern, wanted.variable) {
                return view_part(site, body, pattern, part.place, wanted);
            }
        }
    }
    Ok(())
}

/// Reads what the pattern of the part at a place binds to a variable. The borrows on the way to it end.
#[cycle(view)]
fn view_part(
    site: Site,
    body: &mut Body,
    number: PatternId,
    place: u32,
    wanted: Wanted,
) -> Result<(), LowerFault> {
    if let Pattern::Name { .. } = site.arena.pattern(number).pattern {
        return read_part(site, body, wanted.to, wanted.from, place);
    }
    let mark = body.mark();
    let from = take_free(body)?;
    read_part(site, body, from, wanted.from, place)?;
    view_pattern(site, body, number, Wanted { from, ..wanted })?;
    end(site, body, number, from)?;
    body.release(mark);
    Ok(())
}

/// Reads what the first alternative that fits binds to a variable. Where none before it does, the last one fits.
#[cycle(view)]
fn view_alternatives(
    site: Site,
    body: &mut Body,
    parent: PatternId,
    alternatives: Children,
    wanted: Wanted,
) -> Result<(), LowerFault>
    requires { view.AreBefore site.arena.now parent alternatives }
{
    let mut ends = Vec::new(site.context.alloc);
    let alternatives = site.arena.list(alternatives);
    for (index, alternative) in alternatives.iter().enumerate() {
        if index + 1 < alternatives.len() {
            let next = only_where_fits(site, body, *alternative, wanted.from)?;
            view_pattern(site, body, *alternative, wanted)?;
            let end = body.jump(site.line)?;
            add_jump(&mut ends, end)?;
            body.land(next);
        } else {
            view_pattern(site, body, *alternative, wanted)?;
        }
    }
    body.land_all(&ends);
    Ok(())
}

/// Reads the part of the scrutinee that a pattern binds to a variable, which is named by the first node that declares it:
/// a fresh borrow of it, or the value itself. The pattern fits the scrutinee, which stays.
///
/// The register that is given is above all held ones and above the scrutinee's, and isn't held. `OutOfMemory` is want of
/// memory, of registers or of instructions.
pub fn read_view(
    context: &Context,
    body: &mut Body,
    pattern: PatternId,
    scrutinee: u32,
    variable: u32,
    line: u32,
) -> Result<u32, LowerFault> {
    let site = Site::new(context, line);
    let mark = body.mark();
    keep(body, scrutinee)?;
    let to = take_free(body)?;
    let wanted = Wanted {
        variable,
        from: scrutinee,
        to,
    };
    view_pattern(site, body, pattern, wanted)?;
    body.release(mark);
    Ok(to)
}
