//! The whole phase.
ghost use Rattle.std.specs.Prelude.{◌≡◌, IfErr, IfOk};
ghost use Rattle.ink_names.specs.Later.{IsLaterFault};
ghost use Rattle.ink_traits.specs.Kinds as spec;

use crate::allowed::judge_methods;
use crate::compared::Compared;
use crate::filled::{Filling, fill_impls};
use crate::registered::register_all;
use ink_base::JudgeFault;
use ink_module::CoreModule;
use ink_names::{Impls, Least, Resolutions, Tables};
use ink_signatures::{Room, Signatures, State, add_kinds, own_types, signature_types};
use ink_tables::Lines;
use ink_types::{NIL, TypeId, Types};
use std::alloc::{AllocError, Global};

/// What the phase gives: the types, those of signatures, and which type has which trait by which methods.
#[derive(Drop)]
pub struct Signed {
    pub types: Types,
    pub signatures: Signatures,
    pub impls: Impls,
    /// Each kind as a type with its own parameters.
    pub own_types: Vec<TypeId>,
}

/// Judges kinds of methods, impls and written types, and gives the types of signatures.
fn sign(
    alloc: Global,
    core: &CoreModule,
    tables: &Tables,
    resolutions: &Resolutions,
    own_types: &[TypeId],
    types: Types,
    impls: &mut Impls,
) -> Result<State, AllocError>
    ensures kinds { IfOk result (λ state. state.types.kinds ≡ types.kinds) }
{
    let mut least = Least::new();
    register_all(tables, impls, &mut least, tables.impls())?;
    judge_methods(&core.arena, tables, &mut least, tables.methods());
    let signatures = Signatures::empty(alloc, core.arena.len())?;
    let mut state = State {
        least,
        types,
        signatures,
    };
    let room = Room {
        alloc,
        arena: &core.arena,
        tables,
        resolutions,
        impls: &*impls,
        own_types,
    };
    signature_types(&room, &mut state)?;
    Ok(state)
}

/// The phase, with the least of its broken rules.
fn judge(
    alloc: Global,
    core: &CoreModule,
    tables: &Tables,
    resolutions: &Resolutions,
) -> Result<(Least, Signed), AllocError>
    ensures kinds { IfOk result (λ r. r.1.types.kinds ≡ spec.kinds_of tables.now) }
{
    let mut types = Types::new(alloc);
    add_kinds(&mut types, tables)?;
    let own = own_types(alloc, &mut types, tables)?;
    let nil = types.of(NIL, &[])?;
    let mut impls = Impls::empty(alloc);
    let State {
        least,
        types,
        signatures,
    } = sign(alloc, core, tables, resolutions, &own, types, &mut impls)?;
    let room = Compared {
        arena: &core.arena,
        tables,
        types: &types,
        signatures: &signatures,
        own_types: &own,
        nil,
    };
    let mut filling = Filling { least, impls };
    fill_impls(alloc, room, &mut filling, tables.impls())?;
    let Filling { least, impls } = filling;
    Ok((
        least,
        Signed {
            types,
            signatures,
            impls,
            own_types: own,
        },
    ))
}

/// What the phase gives, or the refusal of the least rule that is broken.
fn finished(lines: &Lines, least: &Least, signed: Signed) -> Result<Signed, JudgeFault>
    ensures kept { IfOk result (λ s. s ≡ signed) }
    ensures late { IfErr result IsLaterFault }
{
    match least.finish(lines) {
        Ok(()) => Ok(signed),
        Err(refusal) => Err(JudgeFault::Refused(refusal)),
    }
}

/// The phase Declarations for a module whose names were resolved without a refusal: what stands for the written types of
/// its signatures, and its impls.
///
/// The rules are E20 to E26 as they are broken in declarations: of all, the one at the least byte, and there the one with
/// the least code. `OutOfMemory` is want of memory, or of numbers.
pub fn impls(
    alloc: Global,
    core: &CoreModule,
    tables: &Tables,
    resolutions: &Resolutions,
) -> Result<Signed, JudgeFault>
    ensures kinds { IfOk result (λ s. s.types.kinds ≡ spec.kinds_of tables.now) }
    ensures late { IfErr result IsLaterFault }
{
    let (least, signed) = judge(alloc, core, tables, resolutions)?;
    finished(&core.lines, &least, signed)
}
