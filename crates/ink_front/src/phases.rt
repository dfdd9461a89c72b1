//! The phases in their order.
ghost use Rattle.std.specs.Prelude.{IfErr};
ghost use Rattle.ink_names.specs.Later.{IsLaterFault};

use ink_base::JudgeFault;
use ink_check::{TypedBodies, type_bodies};
use ink_checked::{Checked, Found, Named, Settled};
use ink_cover::cover;
use ink_declare::{Declared, declare};
use ink_desugar::desugar;
use ink_findings::Moves;
use ink_grammar::Module;
use ink_module::CoreModule;
use ink_moves::moves;
use ink_traits::impls;
use ink_unique::unique;
use std::alloc::Global;

/// Judges the declarations of a module whose names hold, and then the types of its bodies.
fn type_module(
    alloc: Global,
    core: &CoreModule,
    declared: &Declared,
) -> Result<TypedBodies, JudgeFault>
    ensures { IfErr result IsLaterFault }
{
    match impls(alloc, core, &declared.tables, &declared.resolutions) {
        Ok(signed) => type_bodies(alloc, core, &declared.tables, &declared.resolutions, signed),
        Err(fault) => Err(fault),
    }
}

/// Judges what unique values hold in bodies whose variables hold what is used.
fn judge_unique(
    core: &CoreModule,
    declared: &Declared,
    bodies: &TypedBodies,
    fates: Moves,
) -> Result<Moves, JudgeFault>
    ensures { IfErr result IsLaterFault }
{
    match unique(
        core,
        &declared.tables,
        &declared.resolutions,
        &bodies.typed,
        &bodies.types,
    ) {
        Ok(()) => Ok(fates),
        Err(fault) => Err(fault),
    }
}

/// Judges bodies whose matches take each value: moves, and then unique values. It gives what becomes of variables.
fn judge_moves(
    alloc: Global,
    core: &CoreModule,
    declared: &Declared,
    bodies: &TypedBodies,
) -> Result<Moves, JudgeFault>
    ensures { IfErr result IsLaterFault }
{
    let fates = moves(
        alloc,
        core,
        &declared.tables,
        &declared.resolutions,
        &bodies.typed,
        &bodies.types,
    )?;
    judge_unique(core, declared, bodies, fates)
}

/// Judges bodies whose types hold: cover, moves, and then unique values. It gives what becomes of variables.
fn judge_bodies(
    alloc: Global,
    core: &CoreModule,
    declared: &Declared,
    bodies: &mut TypedBodies,
) -> Result<Moves, JudgeFault>
    ensures { IfErr result IsLaterFault }
{
    match cover(
        alloc,
        core,
        &declared.tables,
        &mut bodies.types,
        &bodies.signatures,
        &bodies.typed,
    ) {
        Ok(()) => judge_moves(alloc, core, declared, bodies),
        Err(fault) => Err(fault),
    }
}

/// A module that no phase refuses, of what the phases gave.
fn put_together(
    core: CoreModule,
    declared: Declared,
    bodies: TypedBodies,
    fates: Moves,
) -> Checked {
    let Declared {
        tables,
        resolutions,
    } = declared;
    let TypedBodies {
        types,
        signatures,
        impls,
        own_types,
        typed,
        arguments,
    } = bodies;
    let named = Named {
        tables,
        resolutions,
    };
    let settled = Settled {
        types,
        signatures,
        own_types,
        impls,
    };
    let found = Found {
        typed,
        arguments,
        moves: fates,
    };
    Checked::new(core, named, settled, found)
}

/// Judges the bodies of a module, and gives it with all that was found.
fn judge_typed(
    alloc: Global,
    core: CoreModule,
    declared: Declared,
    mut bodies: TypedBodies,
) -> Result<Checked, JudgeFault>
    ensures { IfErr result IsLaterFault }
{
    match judge_bodies(alloc, &core, &declared, &mut bodies) {
        Ok(fates) => Ok(put_together(core, declared, bodies, fates)),
        Err(fault) => Err(fault),
    }
}

/// Judges the declarations and the bodies of a module whose names hold, and gives it with all that was found.
fn judge_declared(
    alloc: Global,
    core: CoreModule,
    declared: Declared,
) -> Result<Checked, JudgeFault>
    ensures { IfErr result IsLaterFault }
{
    match type_module(alloc, &core, &declared) {
        Ok(bodies) => judge_typed(alloc, core, declared, bodies),
        Err(fault) => Err(fault),
    }
}

/// Judges a module that is read, by the phases behind the reading. `source` is the text that it was read from.
///
/// Refused is the first phase that it breaks, of names, declarations, expressions, cover, moves and unique values, with
/// the least of its rules that are broken. A module that none of them refuses is given with all that they found.
pub fn judge(alloc: Global, source: &[u8], parsed: &Module) -> Result<Checked, JudgeFault>
    ensures { IfErr result IsLaterFault }
{
    let core = desugar(alloc, source, parsed)?;
    match declare(alloc, &core) {
        Ok(declared) => judge_declared(alloc, core, declared),
        Err(fault) => Err(fault),
    }
}
