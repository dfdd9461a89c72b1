//! Tests whether a value fits a pattern.
ghost use Rattle.std.specs.Prelude.{◌<◌};
ghost use Rattle.ink_forms.specs.Views as view;

use crate::context::Context;
use crate::fitting::is_tested;
use crate::literals::test_literal;
use crate::parts::parts_of;
use crate::site::{
    Site, add_jump, compare, end, keep, only_where, put_truth, read_part, take_free,
};
use ink_code::Instr;
use ink_code::row_numbers::INT_EQUAL;
use ink_emit::{Body, Hole, LowerFault};
use ink_forms::{Children, Pattern, PatternId};

/// Whether a pattern fits a value.
#[derive(Clone, Copy)]
pub enum Fits {
    /// It fits every value, so that nothing is tested.
    Always,
    /// This register holds whether it fits. It is above all held ones and above that of the value.
    In(u32),
}

/// The registers of a test: that of the value, and that of the answer, which is held.
#[derive(Clone, Copy)]
struct Asked {
    from: u32,
    to: u32,
}

/// Whether an object is of the constructor that a pattern is of. Where its type has no other, nothing is tested.
fn test_tag(
    site: Site,
    body: &mut Body,
    number: PatternId,
    asked: Asked,
) -> Result<bool, LowerFault> {
    let case = site.case_of(number);
    if site.is_single(case.kind) {
        return Ok(false);
    }
    let Asked { from, to } = asked;
    body.emit(site.line, Instr::Tag { to, object: from })?;
    let tag = site.context.constants.tag(case.tag);
    compare(site, body, INT_EQUAL, to, tag)?;
    Ok(true)
}

/// Whether a value fits a pattern.
#[cycle(fit)]
fn test_pattern(
    site: Site,
    body: &mut Body,
    number: PatternId,
    asked: Asked,
) -> Result<(), LowerFault> {
    match site.arena.pattern(number).pattern {
        Pattern::Wildcard | Pattern::Name { .. } => put_truth(site, body, asked.to, true),
        Pattern::Lit { literal } => test_literal(site, body, literal, asked.from, asked.to),
        Pattern::Either { alternatives } => {
            test_alternatives(site, body, number, alternatives, asked)
        }
        Pattern::Constructor { .. } | Pattern::Fields { .. } => {
            test_object(site, body, number, asked)
        }
    }
}

/// Whether an object is of a constructor and its parts fit their patterns. The first test that fails ends it.
#[cycle(fit)]
fn test_object(
    site: Site,
    body: &mut Body,
    number: PatternId,
    asked: Asked,
) -> Result<(), LowerFault> {
    let mut is_asked = test_tag(site, body, number, asked)?;
    let mut ends = Vec::new(site.context.alloc);
    let parts = parts_of(site, number)?;
    for part in &parts {
        if let Some(pattern) = part.pattern {
            if is_tested(site, pattern) {
                if is_asked {
                    let end = only_where(site, body, asked.to)?;
                    add_jump(&mut ends, end)?;
                }
                is_asked = true;
                test_part(site, body, pattern, part.place, asked)?;
            }
        }
    }
    body.land_all(&ends);
    Ok(())
}

/// Whether the part at a place of an object fits its pattern.
#[cycle(fit)]
fn test_part(
    site: Site,
    body: &mut Body,
    number: PatternId,
    place: u32,
    asked: Asked,
) -> Result<(), LowerFault> {
    let mark = body.mark();
    let from = take_free(body)?;
    read_part(site, body, from, asked.from, place)?;
    test_pattern(site, body, number, Asked { from, to: asked.to })?;
    end(site, body, number, from)?;
    body.release(mark);
    Ok(())
}

/// Whether a value fits one of some alternatives. The first test that does not fail ends it.
#[cycle(fit)]
fn test_alternatives(
    site: Site,
    body: &mut Body,
    parent: PatternId,
    alternatives: Children,
    asked: Asked,
) -> Result<(), LowerFault>
    requires { view.AreBefore site.arena.now parent alternatives }
{
    let mut ends = Vec::new(site.context.alloc);
    for alternative in site.arena.list(alternatives) {
        test_pattern(site, body, *alternative, asked)?;
        let end = body.jump_if(site.line, asked.to)?;
        add_jump(&mut ends, end)?;
    }
    body.land_all(&ends);
    Ok(())
}

/// Goes on behind this only where a value fits a pattern. Elsewhere the jump is taken whose place isn't known yet.
pub(crate) fn only_where_fits(
    site: Site,
    body: &mut Body,
    number: PatternId,
    from: u32,
) -> Result<Hole, LowerFault> {
    let mark = body.mark();
    let to = take_free(body)?;
    test_pattern(site, body, number, Asked { from, to })?;
    body.release(mark);
    only_where(site, body, to)
}

/// Tests whether the value in a register fits a pattern, where there is a value that doesn't. The value stays, and each
/// borrow that the test makes has ended behind it. Nothing more is held afterwards.
///
/// `OutOfMemory` is want of memory, of registers or of instructions.
pub fn test(
    context: &Context,
    body: &mut Body,
    pattern: PatternId,
    scrutinee: u32,
    line: u32,
) -> Result<Fits, LowerFault> {
    let site = Site::new(context, line);
    if !is_tested(site, pattern) {
        return Ok(Fits::Always);
    }
    let mark = body.mark();
    keep(body, scrutinee)?;
    let to = take_free(body)?;
    let from = scrutinee;
    test_pattern(site, body, pattern, Asked { from, to })?;
    body.release(mark);
    Ok(Fits::In(to))
}
