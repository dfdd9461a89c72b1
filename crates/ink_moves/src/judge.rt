//! The whole phase.
ghost use Rattle.std.specs.Prelude.{IfErr};
ghost use Rattle.ink_names.specs.Later.{IsLaterFault};

use crate::body::Bodies;
use crate::build::build_body;
use crate::fates::{Found, judge_variable};
use crate::receivers::judge_receivers;
use crate::watched::watch_moved;
use ink_base::JudgeFault;
use ink_exits::{Exits, add_method};
use ink_findings::{Moves, Typed};
use ink_forms::Arena;
use ink_module::CoreModule;
use ink_names::{Least, MethodEntry, Resolutions, Tables};
use ink_tables::Lines;
use ink_types::Types;
use std::alloc::{AllocError, Global};

/// The exits of all bodies.
fn exits_of(alloc: Global, arena: &Arena, methods: &[MethodEntry]) -> Result<Exits, AllocError> {
    let mut exits = Exits::new(alloc, arena)?;
    for entry in methods {
        add_method(alloc, arena, entry.node, &mut exits)?;
    }
    Ok(exits)
}

/// Judges the moves of a body.
fn judge_body(bodies: &Bodies, found: &mut Found, method: u32) -> Result<(), AllocError> {
    let (flow, start) = build_body(bodies, method)?;
    for variable in &watch_moved(bodies.alloc, &flow, bodies.exits)? {
        judge_variable(bodies, found, &flow, start, variable)?;
    }
    Ok(())
}

/// Judges all bodies.
fn judge(bodies: &Bodies, methods: &[MethodEntry]) -> Result<Found, AllocError> {
    let mut found = Found {
        least: Least::new(),
        moves: Moves::empty(bodies.alloc),
    };
    judge_receivers(bodies, &mut found.least);
    for entry in methods {
        judge_body(bodies, &mut found, entry.node)?;
    }
    Ok(found)
}

/// What the phase gives, or the refusal of the least rule that is broken.
fn finished(lines: &Lines, found: Found) -> Result<Moves, JudgeFault>
    ensures { IfErr result IsLaterFault }
{
    let Found { least, moves } = found;
    match least.finish(lines) {
        Ok(()) => Ok(moves),
        Err(refusal) => Err(JudgeFault::Refused(refusal)),
    }
}

/// The phase Moves for a module of which the phases before hold: what becomes of each variable at each exit.
///
/// The rules are E40, at a variable that some path uses though its last move or write there is a move, and E41, at the
/// name of a method that takes its receiver away and is called on a borrow or a field. Of all, the one at the least byte
/// is told, and there the one with the least code. `OutOfMemory` is want of memory, or of numbers.
///
/// Exits are those of `ink_exits`, and each write of a variable before it is made, for that variable alone. What is live at
/// an exit isn't put: where `Moves` says nothing of a variable that an exit leaves, it is live there. So the result is as
/// large as what is moved at exits. Memory is taken beside it for what all exits leave. A body costs about the points of its
/// graph and what its exits leave, and the points once more for each variable that is moved.
pub fn moves(
    alloc: Global,
    core: &CoreModule,
    tables: &Tables,
    resolutions: &Resolutions,
    typed: &Typed,
    types: &Types,
) -> Result<Moves, JudgeFault>
    ensures late { IfErr result IsLaterFault }
{
    let exits = exits_of(alloc, &core.arena, tables.methods())?;
    let bodies = Bodies {
        alloc,
        arena: &core.arena,
        tables,
        resolutions,
        typed,
        types,
        exits: &exits,
    };
    let found = judge(&bodies, tables.methods())?;
    finished(&core.lines, found)
}
