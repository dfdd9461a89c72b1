//! The whole phase.
ghost use Rattle.std.specs.Prelude.{IfErr};
ghost use Rattle.ink_names.specs.Later.{IsLaterFault};

use crate::methods::type_method;
use ink_base::JudgeFault;
use ink_expressions::{Room, State};
use ink_findings::{TypeArguments, Typed};
use ink_members::MemberRoom;
use ink_module::CoreModule;
use ink_names::{Impls, Least, MethodEntry, Resolutions, Tables};
use ink_signatures::Signatures;
use ink_tables::Lines;
use ink_traits::Signed;
use ink_types::{TypeId, Types};
use std::alloc::{AllocError, Global};

/// What the phase gives: what it was given, with the types that bodies write, and what was found of each node.
#[derive(Drop)]
pub struct TypedBodies {
    pub types: Types,
    pub signatures: Signatures,
    pub impls: Impls,
    /// Each kind as a type with its own parameters.
    pub own_types: Vec<TypeId>,
    pub typed: Typed,
    /// The type arguments of each call and each construction.
    pub arguments: TypeArguments,
}

/// The types of the bodies of methods.
fn type_methods(room: &Room, state: &mut State, methods: &[MethodEntry]) -> Result<(), AllocError> {
    let mut method: u32 = 0;
    for entry in methods {
        type_method(room, state, method, entry)?;
        method = method.saturating_add(1);
    }
    Ok(())
}

/// What goes through the bodies, from the types of signatures.
fn start(
    alloc: Global,
    core: &CoreModule,
    types: Types,
    signatures: Signatures,
) -> Result<State, AllocError> {
    let nodes = core.arena.len();
    let typed = Typed::empty(alloc, nodes)?;
    let arguments = TypeArguments::empty(alloc);
    let least = Least::new();
    Ok(State {
        signed: ink_signatures::State {
            least,
            types,
            signatures,
        },
        typed,
        arguments,
        guards: Vec::new(alloc),
        loops: Vec::new(alloc),
    })
}

/// What the bodies are judged in.
fn room_of<'a>(
    alloc: Global,
    core: &'a CoreModule,
    tables: &'a Tables,
    resolutions: &'a Resolutions,
    impls: &'a Impls,
    own_types: &'a [TypeId],
) -> Room<'a> {
    let arena = &core.arena;
    Room {
        members: MemberRoom {
            alloc,
            arena,
            names: &core.names,
            integers: &core.integers,
            tables,
            resolutions,
            own_types,
        },
        written: ink_signatures::Room {
            alloc,
            arena,
            tables,
            resolutions,
            impls,
            own_types,
        },
    }
}

/// The phase, with the least of its broken rules.
fn judge(
    alloc: Global,
    core: &CoreModule,
    tables: &Tables,
    resolutions: &Resolutions,
    signed: Signed,
) -> Result<(Least, TypedBodies), AllocError> {
    let Signed {
        types,
        signatures,
        impls,
        own_types,
    } = signed;
    let mut state = start(alloc, core, types, signatures)?;
    let room = room_of(alloc, core, tables, resolutions, &impls, &own_types);
    type_methods(&room, &mut state, tables.methods())?;
    let State {
        signed,
        typed,
        arguments,
        ..
    } = state;
    let ink_signatures::State {
        least,
        types,
        signatures,
    } = signed;
    Ok((
        least,
        TypedBodies {
            types,
            signatures,
            impls,
            own_types,
            typed,
            arguments,
        },
    ))
}

/// What the phase gives, or the refusal of the least rule that is broken.
fn finished(lines: &Lines, least: &Least, bodies: TypedBodies) -> Result<TypedBodies, JudgeFault>
    ensures late { IfErr result IsLaterFault }
{
    match least.finish(lines) {
        Ok(()) => Ok(bodies),
        Err(refusal) => Err(JudgeFault::Refused(refusal)),
    }
}

/// The phase Expressions for a module whose names and declarations hold: the type of each node of its bodies, and what each
/// call stands for.
///
/// The rules are E20, E21, E25 and E26 as they are broken in bodies, E30 to E35 and E38: of all, the one at the least byte,
/// and there the one with the least code. `OutOfMemory` is want of memory, or of numbers.
pub fn type_bodies(
    alloc: Global,
    core: &CoreModule,
    tables: &Tables,
    resolutions: &Resolutions,
    signed: Signed,
) -> Result<TypedBodies, JudgeFault>
    ensures late { IfErr result IsLaterFault }
{
    let (least, bodies) = judge(alloc, core, tables, resolutions, signed)?;
    finished(&core.lines, &least, bodies)
}
